// Walks over the fields of a value: the name it begins with, and its fields with one tag, by name and by number.
#![tactic(auto)]

ghost use Rattle.std.specs.Prelude.{◌≡◌, true, ◌≤◌, ◌+◌, length};
ghost use Rattle.sheet.specs.Told.{told_reading};
ghost use Rattle.forest.specs.MeaningPlaces.{nests};
ghost use Rattle.schemas.specs.MeaningTree.{tree_at};
ghost use Rattle.schemas.specs.MeaningSchemas.{name_of, each};
ghost use Rattle.scope.specs.MeaningNames.{same_name};
ghost use Rattle.lookup.specs.MirrorLookup.{its_name, itself, span_of, Lies, look_in, Picks};

mod walking;

use scope::same_name;
use sheet::{Field, Reading, field_at};
pub use walking::Walk;

// Where a name, or the value of a field, stands.
#[derive(Clone, Copy, Debug, Default, PartialEq, Eq)]
pub struct Span {
    pub start: usize,
    pub stop: usize,
}

// Where its value stands.
impl From<Field> for Span {
    ghost from_gives = { λ field span. span ≡ record { start = field.start; stop = field.stop } };

    fn from(field: Field) -> Span {
        Span {
            start: field.start,
            stop: field.stop,
        }
    }
}

// Where the name stands that the fields from `at` begin with.
#[tactic(auto, using(crate::proofs::Names::spans, crate::proofs::Fields::fields))]
pub fn name_of(s: &[u8], at: usize, end: usize) -> Span
    requires { (at ≤ end) × (end ≤ length s.now) }
    ensures { (result ≡ span_of (name_of (tree_at s.now at end))) × Lies s.now (name_of (tree_at s.now at end)) }
{
    match field_at(s, at, end) {
        Some(field) if field.tag == 0x10 => Span::from(field),
        _ => Span::default(),
    }
}

// Whether that name is equal to another.
#[tactic(auto, using(crate::proofs::Names::spanned))]
pub fn has_name(reading: Reading, s: &[u8], at: usize, end: usize, name: &[u8]) -> bool
    requires { (at ≤ end) × (end ≤ length s.now) }
    ensures { result ≡ same_name (told_reading reading) (name_of (tree_at s.now at end)).bytes name.now }
{
    let Span { start, stop } = name_of(s, at, end);
    same_name(reading, &s[start..stop], name)
}

// The number of the first field with the tag and an equal name, counted from `first`, or the number after the last, which is known: the walk ends there.
pub fn look(
    reading: Reading,
    s: &[u8],
    at: usize,
    end: usize,
    tag: u8,
    name: &[u8],
    first: u16,
    past: u16,
) -> Result<u16, u16>
    requires { (at ≤ end) × (end ≤ length s.now) × (nests tag ≡ true) × (past ≡ first + length (each tag itself (tree_at s.now at end))) }
    ensures { result ≡ look_in (told_reading reading) name.now (each tag its_name (tree_at s.now at end)) first }
{
    // Counted here: a number that is not found is told too, and the walk ends before the fields behind the last.
    let mut number = first;
    for field in Walk::of(s, at, end) {
        if number == past {
            break;
        }
        if field.tag == tag {
            if has_name(reading, s, field.start, field.stop, name) {
                return Ok(number);
            }
            number += 1;
        }
    }
    Err(number)
}

// Where the value of the field with the tag stands that has the number, counted from 0, or by how many there are fewer.
pub fn nth(s: &[u8], at: usize, end: usize, tag: u8, number: usize) -> Result<Span, usize>
    requires { (at ≤ end) × (end ≤ length s.now) × (nests tag ≡ true) }
    ensures { Picks s.now (each tag itself (tree_at s.now at end)) number result }
{
    // Counted down here: what is left is told where there are fewer.
    let mut left = number;
    for field in Walk::of(s, at, end) {
        if field.tag == tag {
            if left == 0 {
                return Ok(Span::from(field));
            }
            left -= 1;
        }
    }
    Err(left)
}
