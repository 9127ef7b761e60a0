// Where the names of declarations stand in a sheet: found by number, and noted in lent memory.
#![tactic(auto)]

ghost use Rattle.std.specs.Prelude.{◌≡◌, ◌+◌, ◌≤◌, length, set};
ghost use Rattle.declarations.specs.MeaningNamespace.{schemas_in};
ghost use Rattle.noting.specs.MeaningNames.{names_of};
ghost use Rattle.noting.specs.MirrorNoted.{bytes_at, Spells, span_at, Noted};

use lookup::{Span, name_of};
use standing::declaration;

// Where the names of a declaration stand in the sheet.
#[derive(Clone, Copy, Debug, Default, PartialEq, Eq)]
pub struct NamesAt {
    pub schema: Span,
    pub item: Span,
}

// An undeclared index has empty names.
fn names_at(sheet: &[u8], index: usize) -> NamesAt
    ensures { Spells sheet.now (names_of (schemas_in sheet.now) index).schema result.schema × Spells sheet.now (names_of (schemas_in sheet.now) index).item result.item }
{
    let Ok(found) = declaration(sheet, index) else {
        return NamesAt::default();
    };
    NamesAt {
        schema: name_of(sheet, found.schema.start, found.schema.stop),
        item: name_of(sheet, found.item.start, found.item.stop),
    }
}

// The bytes that stand there.
pub fn bytes_at(sheet: &[u8], span: Span) -> &[u8]
    requires { (span.start ≤ span.stop) × (span.stop ≤ length sheet.now) }
    ensures { result.now ≡ bytes_at sheet.now span }
{
    &sheet[span.start..span.stop]
}

// ---- The names are found once, and noted: four numbers for each declaration, for as many as there is room.

const NOTED: usize = 4;

// Where a name stands, in two numbers.
fn note(names: &mut [u16], at: usize, span: Span)
    requires { (at + 2 ≤ length names.old) × (span.start ≤ 65535) × (span.stop ≤ 65535) }
    ensures { names.new ≡ set (set names.old at span.start) (at + 1) span.stop }
{
    names[at] = span.start as u16;
    names[at + 1] = span.stop as u16;
}

// For the declarations from the first on.
pub fn note_names(sheet: &[u8], names: &mut [u16])
    requires { length sheet.now ≤ 65535 }
    ensures { Noted sheet.now names.new }
{
    // By index: of a slice that was lent out in chunks only the length is known afterwards.
    for index in 0..names.len() / NOTED {
        let NamesAt { schema, item } = names_at(sheet, index);
        note(names, NOTED * index, schema);
        note(names, NOTED * index + 2, item);
    }
}

// Where a name stands, as it is noted.
fn noted(names: &[u16], at: usize) -> Span
    requires { at + 2 ≤ length names.now }
    ensures { result ≡ span_at names.now at }
{
    Span {
        start: usize::from(names[at]),
        stop: usize::from(names[at + 1]),
    }
}

// As they are noted; what is not noted is looked for.
pub fn names_of(sheet: &[u8], names: &[u16], index: usize) -> NamesAt
    requires { Noted sheet.now names.now }
    ensures { Spells sheet.now (names_of (schemas_in sheet.now) index).schema result.schema × Spells sheet.now (names_of (schemas_in sheet.now) index).item result.item }
{
    if index < names.len() / NOTED {
        let schema = noted(names, NOTED * index);
        let item = noted(names, NOTED * index + 2);
        return NamesAt { schema, item };
    }
    names_at(sheet, index)
}
