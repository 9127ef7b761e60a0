// after espr/src/ir/complex_entity.rs of ruststep cd89e5a7cd, Apache-2.0; changed
//
// The questions on rows: parts and lists as a caller lends them, with nothing checked beforehand.
#![tactic(auto)]

ghost use Rattle.std.specs.Prelude.{◌≡◌};
ghost use Rattle.operands.specs.MeaningOperands.{a_list, a_part};
ghost use Rattle.operators.specs.MeaningOperators.{plus, times, minus, over, one_of, every_of, some_of};
ghost use Rattle.algebra.specs.MirrorOrder.{judged_both};
ghost use Rattle.algebra.specs.Promises.{PromiseNew, PromiseSingle, PromiseCompare, PromiseTwo, PromiseSeveral};

use complex_entity::PartialComplexEntity;
use instantiables::Instantiables;
use operands::{List, Operand, Part, hand_out, hand_out_part, read_lists};
use operators::{Add, And, Andor, Bitand, Div, Oneof, Operator, Several, Sub};
use refusal::{Reason, Refusal};
use std::cmp::Ordering;

// ---- parts

pub fn new(indices: &[u16], out: &mut [u16]) -> Result<Instantiables, Refusal>
    ensures { PromiseNew indices.now out.old result out.new }
{
    hand_out_part(indices::new(indices)?, out)
}

pub fn single(index: u16, out: &mut [u16]) -> Result<Instantiables, Refusal>
    ensures { PromiseSingle index out.old result out.new }
{
    if PartialComplexEntity::LAST < index {
        return Err(Reason::Malformed.into());
    }
    hand_out_part(PartialComplexEntity::single(index), out)
}

pub fn compare(left: &[u16], right: &[u16]) -> Result<Ordering, Refusal>
    ensures { PromiseCompare left.now right.now result }
{
    in_order(Part::read(left), Part::read(right))?;
    Ok(PartialComplexEntity::read(left, 0).compare(PartialComplexEntity::read(right, 0)))
}

pub fn join(left: &[u16], right: &[u16], out: &mut [u16]) -> Result<Instantiables, Refusal>
    ensures { PromiseTwo times a_part a_part left.now right.now out.old result out.new }
{
    ask_two::<Bitand, Part, Part>(left, right, out)
}

// ---- lists

pub fn add(left: &[u16], right: &[u16], out: &mut [u16]) -> Result<Instantiables, Refusal>
    ensures { PromiseTwo plus a_list a_list left.now right.now out.old result out.new }
{
    ask_two::<Add, List, List>(left, right, out)
}

pub fn add_part(left: &[u16], right: &[u16], out: &mut [u16]) -> Result<Instantiables, Refusal>
    ensures { PromiseTwo plus a_list a_part left.now right.now out.old result out.new }
{
    ask_two::<Add, List, Part>(left, right, out)
}

pub fn part_add(left: &[u16], right: &[u16], out: &mut [u16]) -> Result<Instantiables, Refusal>
    ensures { PromiseTwo plus a_part a_list left.now right.now out.old result out.new }
{
    ask_two::<Add, Part, List>(left, right, out)
}

pub fn bitand(left: &[u16], right: &[u16], out: &mut [u16]) -> Result<Instantiables, Refusal>
    ensures { PromiseTwo times a_list a_list left.now right.now out.old result out.new }
{
    ask_two::<Bitand, List, List>(left, right, out)
}

pub fn bitand_part(left: &[u16], right: &[u16], out: &mut [u16]) -> Result<Instantiables, Refusal>
    ensures { PromiseTwo times a_list a_part left.now right.now out.old result out.new }
{
    ask_two::<Bitand, List, Part>(left, right, out)
}

pub fn part_bitand(left: &[u16], right: &[u16], out: &mut [u16]) -> Result<Instantiables, Refusal>
    ensures { PromiseTwo times a_part a_list left.now right.now out.old result out.new }
{
    ask_two::<Bitand, Part, List>(left, right, out)
}

pub fn sub(left: &[u16], right: &[u16], out: &mut [u16]) -> Result<Instantiables, Refusal>
    ensures { PromiseTwo minus a_list a_list left.now right.now out.old result out.new }
{
    ask_two::<Sub, List, List>(left, right, out)
}

pub fn sub_part(left: &[u16], right: &[u16], out: &mut [u16]) -> Result<Instantiables, Refusal>
    ensures { PromiseTwo minus a_list a_part left.now right.now out.old result out.new }
{
    ask_two::<Sub, List, Part>(left, right, out)
}

pub fn div(left: &[u16], right: &[u16], out: &mut [u16]) -> Result<Instantiables, Refusal>
    ensures { PromiseTwo over a_list a_list left.now right.now out.old result out.new }
{
    ask_two::<Div, List, List>(left, right, out)
}

pub fn div_part(left: &[u16], right: &[u16], out: &mut [u16]) -> Result<Instantiables, Refusal>
    ensures { PromiseTwo over a_list a_part left.now right.now out.old result out.new }
{
    ask_two::<Div, List, Part>(left, right, out)
}

// ---- several lists: their rows one after another, and how many rows each has

pub fn oneof(counts: &[u16], rows: &[u16], out: &mut [u16]) -> Result<Instantiables, Refusal>
    ensures { PromiseSeveral one_of counts.now rows.now out.old result out.new }
{
    ask_several::<Oneof>(counts, rows, out)
}

pub fn and(counts: &[u16], rows: &[u16], out: &mut [u16]) -> Result<Instantiables, Refusal>
    ensures { PromiseSeveral every_of counts.now rows.now out.old result out.new }
{
    ask_several::<And>(counts, rows, out)
}

pub fn andor(counts: &[u16], rows: &[u16], out: &mut [u16]) -> Result<Instantiables, Refusal>
    ensures { PromiseSeveral some_of counts.now rows.now out.old result out.new }
{
    ask_several::<Andor>(counts, rows, out)
}

// ---- the order of refusals: 15, left operand first; the question's own; 12

// Each question of operands starts here, so that this order stands in one place; `hand_out` is its end.
fn in_order(left: Result<(), usize>, right: Result<(), usize>) -> Result<(), Refusal>
    ensures { result ≡ judged_both left right }
{
    left.and(right)
        .map_err(|k| Refusal::at(Reason::Malformed, k))
}

// Both operands are read before anything is worked out.
fn ask_two<Op: Operator, L: Operand, R: Operand>(
    left: &[u16],
    right: &[u16],
    out: &mut [u16],
) -> Result<Instantiables, Refusal>
    ensures { PromiseTwo Op.meaning L.meaning R.meaning left.now right.now out.old result out.new }
{
    in_order(L::read(left), R::read(right))?;
    let mut work = [0u16; Instantiables::ROOM];
    let answer = Op::value(&mut work, left, right);
    hand_out(answer, &work, out)
}

fn ask_several<Op: Several>(
    counts: &[u16],
    rows: &[u16],
    out: &mut [u16],
) -> Result<Instantiables, Refusal>
    ensures { PromiseSeveral Op.meaning counts.now rows.now out.old result out.new }
{
    in_order(read_lists(counts, rows), Ok(()))?;
    let mut work = [0u16; Instantiables::ROOM];
    let answer = Op::value(&mut work, counts, rows);
    hand_out(answer, &work, out)
}
