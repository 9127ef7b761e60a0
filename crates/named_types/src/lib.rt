// after espr/src/ir/type_ref.rs of ruststep cd89e5a7cd, Apache-2.0; changed
//
// The walk through named types, from the declaration with a number: whether it ends simple, or why it does not end.
#![tactic(auto)]

ghost use Rattle.std.specs.Prelude.{◌≡◌, ◌≤◌, ◌-◌, length};
ghost use Rattle.std.proofs.Math.ListN.{get_elem?};
ghost use Rattle.refusal.specs.Told.{told};
ghost use Rattle.grammar.specs.MeaningReading as readings;
ghost use Rattle.sheet.specs.Told.{told_reading};
ghost use Rattle.schemas.specs.MeaningTree.{tree_at};
ghost use Rattle.schemas.specs.MeaningSchemas.{body_of};
ghost use Rattle.declarations.specs.MeaningNamespace.{schemas_in, declarations};
ghost use Rattle.named_types.specs.MeaningWalk.{is_enumeration};
ghost use Rattle.named_types.specs.MirrorTypes.{turn_at, walked_by};
ghost use Rattle.named_types.specs.MirrorCode.{BodyIs, told_turn};

use lookup::{Span, name_of};
use refusal::{Reason, Refusal};
use resolving::meant;
use sheet::{Field, Reading, field_at};
use standing::{Declared, declaration};

// What a type is; of a named type, where the name stands.
#[derive(Clone, Copy, Debug, PartialEq, Eq)]
enum Body {
    Simple,
    Enumeration,
    Named(Span),
    Other,
}

// One step of the walk: it ends, simple or not; or it goes on to the declaration with a number.
#[derive(Clone, Copy, Debug, PartialEq, Eq)]
enum Step {
    Ends(bool),
    Goes(usize),
}

// The first of a type's fields 21 to 24.
fn body_at(sheet: &[u8], at: usize, end: usize) -> Body
    requires { (at ≤ end) × (end ≤ length sheet.now) }
    ensures { BodyIs sheet.now (body_of (tree_at sheet.now at end)) result }
{
    let mut from = at;
    while let Some(Field { tag, start, stop }) = field_at(sheet, from, end) {
        match tag {
            0x21 => return Body::Simple,
            0x22 => return Body::Enumeration,
            0x23 => return Body::Named(Span { start, stop }),
            0x24 => return Body::Other,
            _ => from = stop,
        }
    }
    Body::Other
}

// What stands at the declaration with the number.
fn step_from(reading: Reading, sheet: &[u8], number: usize) -> Result<Step, Refusal>
    requires { length sheet.now ≤ 65535 }
    ensures { told_turn result ≡ turn_at (told_reading reading) (schemas_in sheet.now) number }
{
    let Ok(Declared { schema, tag, item }) = declaration(sheet, number) else {
        return Err(Reason::NoDeclaration.into());
    };
    if tag != 0x20 {
        return Ok(Step::Ends(false));
    }
    match body_at(sheet, item.start, item.stop) {
        Body::Simple | Body::Enumeration => Ok(Step::Ends(true)),
        Body::Other => Ok(Step::Ends(false)),
        Body::Named(name) => {
            let here = name_of(sheet, schema.start, schema.stop);
            let schema_name = &sheet[here.start..here.stop];
            let next = meant(reading, sheet, schema_name, &sheet[name.start..name.stop]).ok_or(
                Refusal::at(Reason::Undeclared, name.start),
            )?;
            Ok(Step::Goes(usize::from(next)))
        }
    }
}

// How many declarations there are: by so many fewer than there are bytes.
fn count_all(sheet: &[u8]) -> usize
    ensures { result ≡ length (declarations (schemas_in sheet.now)) }
{
    let most = sheet.len();
    match declaration(sheet, most) {
        Ok(_) => most,
        Err(fewer) => most - fewer,
    }
}

// Whether the declaration with the number is a type that is an enumeration.
pub fn is_enumeration(sheet: &[u8], number: usize) -> bool
    ensures { (rd : readings.Reading) → result ≡ is_enumeration rd (schemas_in sheet.now) (get_elem? (declarations (schemas_in sheet.now)) number) }
{
    let Ok(Declared { tag, item, .. }) = declaration(sheet, number) else {
        return false;
    };
    tag == 0x20 && matches!(body_at(sheet, item.start, item.stop), Body::Enumeration)
}

// From the declaration with the number: the flag, or why there is none. As many steps as there are declarations have met a path again.
pub fn walk(reading: Reading, sheet: &[u8], number: usize) -> Result<bool, Refusal>
    requires { length sheet.now ≤ 65535 }
    ensures { told result ≡ walked_by (told_reading reading) (schemas_in sheet.now) (length (declarations (schemas_in sheet.now)) - 1) number }
{
    let mut at = number;
    let mut left = count_all(sheet);
    loop {
        match step_from(reading, sheet, at) {
            Ok(Step::Ends(simple)) => break Ok(simple),
            Err(why) => break Err(why),
            Ok(Step::Goes(next)) => {
                if left <= 1 {
                    break Err(Reason::NamedThroughItself.into());
                }
                left -= 1;
                at = next;
            }
        }
    }
}
