// after espr/src/ir/namespace.rs of ruststep cd89e5a7cd, Apache-2.0; changed
//
// The walk over the declarations of a sheet by a number, to where the declaration stands.
#![tactic(auto)]

ghost use Rattle.std.specs.Prelude.{◌≤◌, length};
ghost use Rattle.declarations.specs.MeaningNamespace.{schemas_in, declarations};
ghost use Rattle.standing.specs.MirrorDeclared.{StandsAt, InFields};

use lookup::{Span, Walk, nth};
use sheet::Field;

// Where a declaration stands: its schema's value, and its own field's tag and value.
#[derive(Clone, Copy, Debug, PartialEq, Eq)]
pub struct Declared {
    pub schema: Span,
    pub tag: u8,
    pub item: Span,
}

// The declaration with the number among those of one schema, or by how many there are fewer.
#[tactic(auto, using(crate::proofs::Standing::fielding))]
fn in_fields(s: &[u8], at: usize, end: usize, number: usize) -> Result<Declared, usize>
    requires { (at ≤ end) × (end ≤ length s.now) }
    ensures { InFields s.now at end number result }
{
    let schema = Span {
        start: at,
        stop: end,
    };
    // Each arm makes its own: behind arms that meet, the search does not find what each of them knows.
    match nth(s, at, end, 0x20, number) {
        Ok(item) => Ok(Declared {
            schema,
            tag: 0x20,
            item,
        }),
        Err(behind) => {
            let item = nth(s, at, end, 0x30, behind)?;
            Ok(Declared {
                schema,
                tag: 0x30,
                item,
            })
        }
    }
}

// Where the declaration with the number stands, or by how many there are fewer.
pub fn declaration(sheet: &[u8], index: usize) -> Result<Declared, usize>
    ensures { StandsAt sheet.now (declarations (schemas_in sheet.now)) index result }
{
    // Counted down schema by schema: what is left is told where there are fewer.
    let mut left = index;
    for Field { tag, start, stop } in Walk::of(sheet, 0, sheet.len()) {
        if tag == 1 {
            match in_fields(sheet, start, stop, left) {
                Ok(here) => return Ok(here),
                Err(behind) => left = behind,
            }
        }
    }
    Err(left)
}
