// after espr/src/ir/namespace.rs of ruststep cd89e5a7cd, Apache-2.0; changed
//
// Walks over the declarations of a sheet: by schema, kind and name to a number.
#![tactic(auto)]

ghost use Rattle.std.specs.Prelude.{◌≡◌, ◌≤◌, ◌+◌, ◌-◌, length};
ghost use Rattle.sheet.specs.Told.{told_reading};
ghost use Rattle.schemas.specs.MeaningTree.{tree_at};
ghost use Rattle.scope.specs.Told.{told_kind};
ghost use Rattle.declarations.specs.MeaningNamespace.{schemas_in, declaration_for};
ghost use Rattle.declarations.specs.MirrorNamespace.{path_to, sought_of, numbers_at, NumbersIn, in_schema, in_kind, LastSchemaOf, SmallNumbers};

use lookup::{Walk, has_name, look};
use scope::ScopeType;
use sheet::{Field, Reading};

// The numbers of a schema's declarations: of the first, of the first entity and behind the last; and where its fields stand.
#[derive(Clone, Copy, Debug, PartialEq, Eq)]
pub struct Numbers {
    pub first: u16,
    pub entities: u16,
    pub past: u16,
    pub start: usize,
    pub stop: usize,
}

// The last schema of a name, and whether no other has it.
#[derive(Clone, Copy, Debug, PartialEq, Eq)]
pub struct LastSchema {
    pub numbers: Numbers,
    pub alone: bool,
}

// ---- Walks over one schema.

// Its numbers, from that of its first declaration on.
fn numbers_at(s: &[u8], at: usize, end: usize, first: u16) -> Numbers
    requires { (at ≤ end) × (end ≤ length s.now) × (first + (end - at) ≤ 65535) }
    ensures { result ≡ numbers_at s.now at end first }
{
    let mut entities = first;
    let mut past = first;
    for field in Walk::of(s, at, end) {
        match field.tag {
            0x20 => {
                entities += 1;
                past += 1;
            }
            0x30 => past += 1,
            _ => {}
        }
    }
    Numbers {
        first,
        entities,
        past,
        start: at,
        stop: end,
    }
}

// The number of the first equal name of a kind: only types and entities are declared.
#[tactic(auto, using(crate::proofs::Walks::searching))]
pub fn in_kind(
    reading: Reading,
    s: &[u8],
    numbers: Numbers,
    kind: ScopeType,
    name: &[u8],
) -> Result<u16, u16>
    requires { NumbersIn s.now numbers }
    ensures { result ≡ in_kind (told_reading reading) (told_kind kind) name.now (tree_at s.now numbers.start numbers.stop) numbers.first }
{
    let Numbers {
        first,
        entities,
        past,
        start,
        stop,
    } = numbers;
    match kind {
        ScopeType::Type => look(reading, s, start, stop, 0x20, name, first, entities),
        ScopeType::Entity => look(reading, s, start, stop, 0x30, name, entities, past),
        _ => Err(0),
    }
}

// The number of the first equal name, types first.
#[tactic(auto, using(crate::proofs::Walks::insides))]
pub fn in_schema(reading: Reading, s: &[u8], numbers: Numbers, name: &[u8]) -> Result<u16, u16>
    requires { NumbersIn s.now numbers }
    ensures { result ≡ in_schema (told_reading reading) name.now (tree_at s.now numbers.start numbers.stop) numbers.first }
{
    match in_kind(reading, s, numbers, ScopeType::Type, name) {
        Ok(number) => Ok(number),
        Err(_) => in_kind(reading, s, numbers, ScopeType::Entity, name),
    }
}

// ---- Walks over the schemas of a sheet.

// The last schema of the name, and whether it is the only one.
pub fn last_schema(reading: Reading, sheet: &[u8], scope: &[u8]) -> Option<LastSchema>
    requires { length sheet.now ≤ 65535 }
    ensures { LastSchemaOf (told_reading reading) sheet.now scope.now result × SmallNumbers result }
{
    let mut last: Option<LastSchema> = None;
    let mut first = 0;
    for Field { tag, start, stop } in Walk::of(sheet, 0, sheet.len()) {
        if tag == 1 {
            let numbers = numbers_at(sheet, start, stop, first);
            if has_name(reading, sheet, start, stop, scope) {
                let alone = last.is_none();
                last = Some(LastSchema { numbers, alone });
            }
            first = numbers.past;
        }
    }
    last
}

// The number of the first declaration of a kind and a name in a schema of the name `scope`.
pub fn first_of(
    reading: Reading,
    sheet: &[u8],
    scope: &[u8],
    kind: ScopeType,
    name: &[u8],
) -> Option<u16>
    requires { length sheet.now ≤ 65535 }
    ensures { result ≡ sought_of (declaration_for (told_reading reading) (schemas_in sheet.now) (path_to scope.now (told_kind kind) name.now)) }
{
    let mut first = 0;
    for Field { tag, start, stop } in Walk::of(sheet, 0, sheet.len()) {
        if tag == 1 {
            let numbers = numbers_at(sheet, start, stop, first);
            if has_name(reading, sheet, start, stop, scope) {
                if let Ok(number) = in_kind(reading, sheet, numbers, kind, name) {
                    return Some(number);
                }
            }
            first = numbers.past;
        }
    }
    None
}
