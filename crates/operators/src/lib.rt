// after espr/src/ir/complex_entity.rs of ruststep cd89e5a7cd, Apache-2.0; changed
//
// The operators by name: the value of good operands, in a work array.
#![tactic(auto)]

ghost use Rattle.std.specs.Prelude.{◌≡◌, ◌*◌, ◌/◌, ◌≤◌, length};
ghost use Rattle.complex_entity.specs.MeaningLists.{add, held};
ghost use Rattle.rows.specs.MirrorRows.{parts_at};
ghost use Rattle.instantiables.specs.MirrorRows.{lists_at, sum, AllSets, Listing};
ghost use Rattle.instantiables.specs.Told.{told_listed};
ghost use Rattle.operands.specs.MirrorOperands.{parts_in, Operable};
ghost use Rattle.operands.specs.MirrorResults.{Valued};
ghost use Rattle.operators.specs.MeaningOperators as operators;
ghost use Rattle.operators.specs.MeaningOperators.{plus, times, minus, over, one_of, every_of, some_of, value_of, value_of_all};

use complex_entity::PartialComplexEntity;
use instantiables::Instantiables;
use refusal::Refusal;
use rows::copy;

// ---- of two lists

pub trait Operator {
    ghost meaning: { operators.Operator };

    // The value of good operands, in a work array.
    fn value(work: &mut [u16], left: &[u16], right: &[u16]) -> Result<Instantiables, Refusal>
        requires { (1664 ≤ length work.old) × Operable left.now × Operable right.now }
        ensures { Valued (value_of meaning (parts_in left.now) (parts_in right.now)) work.new (told_listed result) };
}

// `+`
pub struct Add;

impl Operator for Add {
    ghost meaning = { plus };

    // The rows come in any order: both lists are added to an empty one, which sorts them.
    fn value(work: &mut [u16], left: &[u16], right: &[u16]) -> Result<Instantiables, Refusal> {
        let answer = Instantiables::empty().add(work, listed(left), left);
        let Ok(list) = answer else {
            return answer;
        };
        list.add(work, listed(right), right)
    }
}

// `&`; of two parts it is their join
pub struct Bitand;

impl Operator for Bitand {
    ghost meaning = { times };

    fn value(work: &mut [u16], left: &[u16], right: &[u16]) -> Result<Instantiables, Refusal> {
        Instantiables::bitand(work, listed(left), left, listed(right), right)
    }
}

// `-`
pub struct Sub;

impl Operator for Sub {
    ghost meaning = { minus };

    // Rows are kept where they stand, so the left list goes to the work array first.
    fn value(work: &mut [u16], left: &[u16], right: &[u16]) -> Result<Instantiables, Refusal> {
        copy(work, left, left.len());
        Ok(keeping::sub(listed(left), work, listed(right), right))
    }
}

// `/`
pub struct Div;

impl Operator for Div {
    ghost meaning = { over };

    fn value(work: &mut [u16], left: &[u16], right: &[u16]) -> Result<Instantiables, Refusal> {
        copy(work, left, left.len());
        Ok(keeping::div(listed(left), work, listed(right), right))
    }
}

// The list whose rows are lent.
fn listed(rows: &[u16]) -> Instantiables
    ensures { result.count ≡ length rows.now / 13 }
{
    Instantiables {
        count: rows.len() / PartialComplexEntity::ROW,
    }
}

// ---- of several lists, which stand one after another; AND and ANDOR keep a copy of the list so far in a second array

pub trait Several {
    ghost meaning: { operators.Several };

    fn value(work: &mut [u16], counts: &[u16], rows: &[u16]) -> Result<Instantiables, Refusal>
        requires { (1664 ≤ length work.old) × (13 * sum counts.now ≤ length rows.now) × AllSets (lists_at counts.now rows.now) }
        ensures { Valued (value_of_all meaning (lists_at counts.now rows.now)) work.new (told_listed result) };
}

pub struct Oneof;

impl Several for Oneof {
    ghost meaning = { one_of };

    fn value(work: &mut [u16], counts: &[u16], rows: &[u16]) -> Result<Instantiables, Refusal> {
        several::oneof(work, counts, rows)
    }
}

pub struct And;

impl Several for And {
    ghost meaning = { every_of };

    fn value(work: &mut [u16], counts: &[u16], rows: &[u16]) -> Result<Instantiables, Refusal> {
        let mut scratch = [0u16; Instantiables::ROOM];
        several::and(work, counts, rows, &mut scratch)
    }
}

pub struct Andor;

impl Several for Andor {
    ghost meaning = { some_of };

    fn value(work: &mut [u16], counts: &[u16], rows: &[u16]) -> Result<Instantiables, Refusal> {
        let mut scratch = [0u16; Instantiables::ROOM];
        several::andor(work, counts, rows, &mut scratch)
    }
}
