// The questions on rows.
ghost use Rattle.instantiables.specs.Told.{told_listed};
ghost use Rattle.operators.specs.MeaningOperators.{plus, times, minus, over, one_of, every_of, some_of};
ghost use Rattle.operands.specs.MeaningOperands.{a_list, a_part};
ghost use Rattle.algebra.specs.Promises.{PromiseNew, PromiseSingle, PromiseCompare, PromiseTwo, PromiseSeveral};
ghost use Rattle.codes.specs.Told.{compared_parts};
ghost use Rattle.exports.specs.Promises.{Exported};

use codes::hand_out;

// ---- parts

#[unsafe(no_mangle)]
pub extern "C" fn dinkolafe_new(indices: &[u16], out: &mut [u16], value: &mut u64) -> u8
    ensures { Exported told_listed (λ a. PromiseNew indices.now out.old a out.new) result value.new }
{
    hand_out(algebra::new(indices, out), value)
}

#[unsafe(no_mangle)]
pub extern "C" fn dinkolafe_single(index: u16, out: &mut [u16], value: &mut u64) -> u8
    ensures { Exported told_listed (λ a. PromiseSingle index out.old a out.new) result value.new }
{
    hand_out(algebra::single(index, out), value)
}

#[unsafe(no_mangle)]
pub extern "C" fn dinkolafe_compare(left: &[u16], right: &[u16], value: &mut u64) -> u8
    ensures { Exported compared_parts (λ a. PromiseCompare left.now right.now a) result value.new }
{
    hand_out(algebra::compare(left, right), value)
}

#[unsafe(no_mangle)]
pub extern "C" fn dinkolafe_join(
    left: &[u16],
    right: &[u16],
    out: &mut [u16],
    value: &mut u64,
) -> u8
    ensures { Exported told_listed (λ a. PromiseTwo times a_part a_part left.now right.now out.old a out.new) result value.new }
{
    hand_out(algebra::join(left, right, out), value)
}

// ---- lists

#[unsafe(no_mangle)]
pub extern "C" fn dinkolafe_add(left: &[u16], right: &[u16], out: &mut [u16], value: &mut u64) -> u8
    ensures { Exported told_listed (λ a. PromiseTwo plus a_list a_list left.now right.now out.old a out.new) result value.new }
{
    hand_out(algebra::add(left, right, out), value)
}

#[unsafe(no_mangle)]
pub extern "C" fn dinkolafe_add_part(
    left: &[u16],
    right: &[u16],
    out: &mut [u16],
    value: &mut u64,
) -> u8
    ensures { Exported told_listed (λ a. PromiseTwo plus a_list a_part left.now right.now out.old a out.new) result value.new }
{
    hand_out(algebra::add_part(left, right, out), value)
}

#[unsafe(no_mangle)]
pub extern "C" fn dinkolafe_part_add(
    left: &[u16],
    right: &[u16],
    out: &mut [u16],
    value: &mut u64,
) -> u8
    ensures { Exported told_listed (λ a. PromiseTwo plus a_part a_list left.now right.now out.old a out.new) result value.new }
{
    hand_out(algebra::part_add(left, right, out), value)
}

#[unsafe(no_mangle)]
pub extern "C" fn dinkolafe_bitand(
    left: &[u16],
    right: &[u16],
    out: &mut [u16],
    value: &mut u64,
) -> u8
    ensures { Exported told_listed (λ a. PromiseTwo times a_list a_list left.now right.now out.old a out.new) result value.new }
{
    hand_out(algebra::bitand(left, right, out), value)
}

#[unsafe(no_mangle)]
pub extern "C" fn dinkolafe_bitand_part(
    left: &[u16],
    right: &[u16],
    out: &mut [u16],
    value: &mut u64,
) -> u8
    ensures { Exported told_listed (λ a. PromiseTwo times a_list a_part left.now right.now out.old a out.new) result value.new }
{
    hand_out(algebra::bitand_part(left, right, out), value)
}

#[unsafe(no_mangle)]
pub extern "C" fn dinkolafe_part_bitand(
    left: &[u16],
    right: &[u16],
    out: &mut [u16],
    value: &mut u64,
) -> u8
    ensures { Exported told_listed (λ a. PromiseTwo times a_part a_list left.now right.now out.old a out.new) result value.new }
{
    hand_out(algebra::part_bitand(left, right, out), value)
}

#[unsafe(no_mangle)]
pub extern "C" fn dinkolafe_sub(left: &[u16], right: &[u16], out: &mut [u16], value: &mut u64) -> u8
    ensures { Exported told_listed (λ a. PromiseTwo minus a_list a_list left.now right.now out.old a out.new) result value.new }
{
    hand_out(algebra::sub(left, right, out), value)
}

#[unsafe(no_mangle)]
pub extern "C" fn dinkolafe_sub_part(
    left: &[u16],
    right: &[u16],
    out: &mut [u16],
    value: &mut u64,
) -> u8
    ensures { Exported told_listed (λ a. PromiseTwo minus a_list a_part left.now right.now out.old a out.new) result value.new }
{
    hand_out(algebra::sub_part(left, right, out), value)
}

#[unsafe(no_mangle)]
pub extern "C" fn dinkolafe_div(left: &[u16], right: &[u16], out: &mut [u16], value: &mut u64) -> u8
    ensures { Exported told_listed (λ a. PromiseTwo over a_list a_list left.now right.now out.old a out.new) result value.new }
{
    hand_out(algebra::div(left, right, out), value)
}

#[unsafe(no_mangle)]
pub extern "C" fn dinkolafe_div_part(
    left: &[u16],
    right: &[u16],
    out: &mut [u16],
    value: &mut u64,
) -> u8
    ensures { Exported told_listed (λ a. PromiseTwo over a_list a_part left.now right.now out.old a out.new) result value.new }
{
    hand_out(algebra::div_part(left, right, out), value)
}

// ---- several lists: their rows one after another, and how many rows each has

#[unsafe(no_mangle)]
pub extern "C" fn dinkolafe_oneof(
    counts: &[u16],
    rows: &[u16],
    out: &mut [u16],
    value: &mut u64,
) -> u8
    ensures { Exported told_listed (λ a. PromiseSeveral one_of counts.now rows.now out.old a out.new) result value.new }
{
    hand_out(algebra::oneof(counts, rows, out), value)
}

#[unsafe(no_mangle)]
pub extern "C" fn dinkolafe_and(
    counts: &[u16],
    rows: &[u16],
    out: &mut [u16],
    value: &mut u64,
) -> u8
    ensures { Exported told_listed (λ a. PromiseSeveral every_of counts.now rows.now out.old a out.new) result value.new }
{
    hand_out(algebra::and(counts, rows, out), value)
}

#[unsafe(no_mangle)]
pub extern "C" fn dinkolafe_andor(
    counts: &[u16],
    rows: &[u16],
    out: &mut [u16],
    value: &mut u64,
) -> u8
    ensures { Exported told_listed (λ a. PromiseSeveral some_of counts.now rows.now out.old a out.new) result value.new }
{
    hand_out(algebra::andor(counts, rows, out), value)
}
