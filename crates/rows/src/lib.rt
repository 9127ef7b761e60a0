// after espr/src/ir/complex_entity.rs of ruststep cd89e5a7cd, Apache-2.0; changed
//
// Rows of 13 numbers, one a part: where a part stands among sorted ones, two sorted lists made one, and rows that move.
#![tactic(auto)]

ghost use Rattle.std.specs.Prelude.{◌≡◌, ◌++◌, ◌+◌, ◌*◌, ◌≤◌, length, take, drop};
ghost use Rattle.std.proofs.Math.Seq.{paste};
ghost use Rattle.complex_entity.specs.MeaningLists.{add};
ghost use Rattle.complex_entity.specs.MeaningParts.{order};
ghost use Rattle.complex_entity.specs.MirrorParts.{part_at};
ghost use Rattle.complex_entity.specs.Told.{told_order};
ghost use Rattle.rows.specs.MirrorRows.{parts_at, Stands, Put};
ghost use Rattle.rows.specs.MirrorLists.{place_of};
ghost use Rattle.rows.specs.MirrorUnions.{Compared};

use complex_entity::PartialComplexEntity;
use std::cmp::Ordering;

const ROW: usize = PartialComplexEntity::ROW;

// Where a part of these names stands in a list, or else where it would go, by halving.
// By hand: the library's `binary_search_by` over `as_chunks` is as fast, but its proof is not closed.
pub fn place(rows: &[u16], count: usize, names: &[u16]) -> Result<usize, usize>
    requires { Stands rows.now count }
    ensures { result ≡ place_of (parts_at count rows.now) names.now }
{
    let mut low = 0;
    let mut high = count;
    while low < high {
        let middle = low + (high - low) / 2;
        match order_at(names, rows, middle) {
            Ordering::Less => {
                high = middle;
            }
            Ordering::Equal => {
                return Ok(middle);
            }
            Ordering::Greater => {
                low = middle + 1;
            }
        }
    }
    Err(low)
}

// The same, the last row looked at first, since results often come in order.
pub fn place_last(rows: &[u16], count: usize, names: &[u16]) -> Result<usize, usize>
    requires { Stands rows.now count }
    ensures { result ≡ place_of (parts_at count rows.now) names.now }
{
    if count == 0 {
        return Err(0);
    }
    match order_at(names, rows, count - 1) {
        Ordering::Less => place(rows, count, names),
        Ordering::Equal => Ok(count - 1),
        Ordering::Greater => Err(count),
    }
}

// Some names against those of a row of a list.
fn order_at(names: &[u16], rows: &[u16], row: usize) -> Ordering
    requires { 13 * row + 13 ≤ length rows.now }
    ensures { told_order result ≡ order names.now (part_at (drop (13 * row) rows.now)) }
{
    PartialComplexEntity::order(names, PartialComplexEntity::names_at(rows, ROW * row))
}

// How many parts two sorted lists have together. The steps say how the rows compare, the last ones first.
pub fn together(
    rows: &[u16],
    count: usize,
    others: &[u16],
    other: usize,
    steps: &mut [Ordering],
) -> usize
    requires { Stands rows.now count × Stands others.now other × (length steps.old ≡ 256) }
    ensures sum { result ≡ length (add (parts_at count rows.now) (parts_at other others.now)) }
    ensures told { Compared rows.now others.now count other steps.new }
{
    let mut left = count;
    let mut right = other;
    let mut total = count + other;
    for step in steps.iter_mut() {
        if left == 0 || right == 0 {
            break;
        }
        let names = PartialComplexEntity::names_at(rows, ROW * (left - 1));
        let order = order_at(names, others, right - 1);
        *step = order;
        match order {
            Ordering::Less => {
                right -= 1;
            }
            Ordering::Equal => {
                left -= 1;
                right -= 1;
                total -= 1;
            }
            Ordering::Greater => {
                left -= 1;
            }
        }
    }
    total
}

// Two sorted lists become one of `total` parts, from the last ones on, as the steps say; the first rows that are left stand there already.
pub fn merge(
    rows: &mut [u16],
    count: usize,
    others: &[u16],
    other: usize,
    total: usize,
    steps: &[Ordering],
)
    requires stands { Stands rows.old count × Stands others.now other × (length steps.now ≡ 256) }
    requires total_value { (total ≡ length (add (parts_at count rows.old) (parts_at other others.now))) × (total ≤ 128) }
    requires compared { Compared rows.old others.now count other steps.now }
    ensures { Put (add (parts_at count rows.old) (parts_at other others.now)) rows.old rows.new }
{
    let mut left = count;
    let mut right = other;
    let mut to = total;
    for step in steps {
        if left == 0 || right == 0 {
            break;
        }
        to -= 1;
        match *step {
            Ordering::Less => {
                right -= 1;
                copy_row(rows, to, others, right);
            }
            Ordering::Equal => {
                left -= 1;
                right -= 1;
                move_row(rows, left, to);
            }
            Ordering::Greater => {
                left -= 1;
                move_row(rows, left, to);
            }
        }
    }
    copy(rows, others, ROW * right);
}

// A row of another list becomes a row.
fn copy_row(rows: &mut [u16], to: usize, others: &[u16], from: usize)
    requires { (13 * to + 13 ≤ length rows.old) × (13 * from + 13 ≤ length others.now) }
    ensures { rows.new ≡ paste rows.old (13 * to) (drop (13 * from) others.now) 13 }
{
    let row = row_at(others, from);
    rows[ROW * to..ROW * to + ROW].copy_from_slice(&row);
}

// A row becomes another one too.
fn move_row(rows: &mut [u16], from: usize, to: usize)
    requires { (13 * from + 13 ≤ length rows.old) × (13 * to + 13 ≤ length rows.old) }
    ensures { rows.new ≡ paste rows.old (13 * to) (drop (13 * from) rows.old) 13 }
{
    let row = row_at(rows, from);
    rows[ROW * to..ROW * to + ROW].copy_from_slice(&row);
}

// The numbers of a row, by value: an array is copied as a whole, and what may be the same memory number by number.
fn row_at(rows: &[u16], at: usize) -> [u16; 13]
    requires { 13 * at + 13 ≤ length rows.now }
    ensures { result ≡ take 13 (drop (13 * at) rows.now) }
{
    let mut row = [0u16; ROW];
    row.copy_from_slice(&rows[ROW * at..ROW * at + ROW]);
    row
}

// The n numbers from a place on go to a place that is not before it, the last ones first.
// Not by `copy_within`, which brings the C function `memmove` in, that a caller in C need not have.
pub fn raise(rows: &mut [u16], from: usize, to: usize, n: usize)
    requires { (from ≤ to) × (to + n ≤ length rows.old) }
    ensures { rows.new ≡ paste rows.old to (drop from rows.old) n }
{
    for k in 0..n {
        let last = n - 1 - k;
        rows[to + last] = rows[from + last];
    }
}

// The first n numbers of one slice go to the front of another. Not by `copy_from_slice`, for the same reason.
pub fn copy(to: &mut [u16], from: &[u16], n: usize)
    requires { (n ≤ length to.old) × (n ≤ length from.now) }
    ensures { to.new ≡ take n from.now ++ drop n to.old }
{
    for i in 0..n {
        to[i] = from[i];
    }
}
