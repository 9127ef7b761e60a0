// after espr/src/ir/complex_entity.rs of ruststep cd89e5a7cd, Apache-2.0; changed
//
// ONEOF, AND and ANDOR of lists that stand one after another.
#![tactic(auto)]

ghost use Rattle.std.specs.Prelude.{◌*◌, ◌≤◌, length};
ghost use Rattle.complex_entity.specs.MeaningLists.{oneof_of, prefixes, and_of, andor_of};
ghost use Rattle.rows.specs.MirrorRows.{parts_at, Stands};
ghost use Rattle.instantiables.specs.MirrorRows.{lists_at, sum, Sets, AllSets, Listing};
ghost use Rattle.instantiables.specs.Told.{told_listed};

use complex_entity::PartialComplexEntity;
use instantiables::Instantiables;
use refusal::{Reason, Refusal};
use rows::copy;

// ONEOF(A, B, C) -> [A, B, C]
pub fn oneof(rows: &mut [u16], counts: &[u16], lists: &[u16]) -> Result<Instantiables, Refusal>
    requires { (1664 ≤ length rows.old) × (13 * sum counts.now ≤ length lists.now) }
    ensures { Listing (oneof_of (lists_at counts.now lists.now)) rows.old rows.new (told_listed result) }
{
    let mut list = Instantiables::empty();
    let mut rest = lists;
    for &n in counts {
        let count = usize::from(n);
        let answer = list.add(rows, Instantiables { count }, rest);
        let Ok(more) = answer else {
            return answer;
        };
        list = more;
        rest = &rest[PartialComplexEntity::ROW * count..];
    }
    Ok(list)
}

// A AND B AND C -> [A & B & C]; every prefix is held to the limits
pub fn and(
    rows: &mut [u16],
    counts: &[u16],
    lists: &[u16],
    scratch: &mut [u16],
) -> Result<Instantiables, Refusal>
    requires in_bounds { (1664 ≤ length rows.old) × (1664 ≤ length scratch.old) × (13 * sum counts.now ≤ length lists.now) }
    requires all_sets { AllSets (lists_at counts.now lists.now) }
    ensures { Listing (and_of (lists_at counts.now lists.now)) rows.new rows.new (told_listed result) }
{
    if counts.len() < 2 {
        return Err(Reason::TooFewTerms.into());
    }
    let first = usize::from(counts[0]);
    let second = usize::from(counts[1]);
    let rest = &lists[PartialComplexEntity::ROW * first..];
    let answer = Instantiables::bitand(
        rows,
        Instantiables { count: first },
        lists,
        Instantiables { count: second },
        rest,
    );
    let Ok(two) = answer else {
        return answer;
    };
    let further = &rest[PartialComplexEntity::ROW * second..];
    and_more(two, rows, &counts[2..], further, scratch)
}

// The further terms of an AND: shorter lists may follow longer ones, so what is past the rows is not what it was.
fn and_more(
    two: Instantiables,
    rows: &mut [u16],
    counts: &[u16],
    lists: &[u16],
    scratch: &mut [u16],
) -> Result<Instantiables, Refusal>
    requires stands { Stands rows.old two.count × (1664 ≤ length scratch.old) × (13 * sum counts.now ≤ length lists.now) }
    requires sets { Sets (parts_at two.count rows.old) × AllSets (lists_at counts.now lists.now) }
    ensures { Listing (prefixes (parts_at two.count rows.old) (lists_at counts.now lists.now)) rows.new rows.new (told_listed result) }
{
    let mut list = two;
    let mut rest = lists;
    for &n in counts {
        let count = usize::from(n);
        copy(scratch, rows, PartialComplexEntity::ROW * list.count);
        let answer = Instantiables::bitand(rows, list, scratch, Instantiables { count }, rest);
        let Ok(more) = answer else {
            return answer;
        };
        list = more;
        rest = &rest[PartialComplexEntity::ROW * count..];
    }
    Ok(list)
}

// A ANDOR B ANDOR C -> [A, B, C, A & B, B & C, A & C, A & B & C]
pub fn andor(
    rows: &mut [u16],
    counts: &[u16],
    lists: &[u16],
    scratch: &mut [u16],
) -> Result<Instantiables, Refusal>
    requires in_bounds { (1664 ≤ length rows.old) × (1664 ≤ length scratch.old) × (13 * sum counts.now ≤ length lists.now) }
    requires all_sets { AllSets (lists_at counts.now lists.now) }
    ensures { Listing (andor_of (lists_at counts.now lists.now)) rows.old rows.new (told_listed result) }
{
    if counts.is_empty() {
        return Err(Reason::TooFewTerms.into());
    }
    if Instantiables::FACTORS < counts.len() {
        return Err(Reason::TooManyFactors.into());
    }
    let mut list = Instantiables::empty();
    let mut rest = lists;
    for &n in counts {
        let count = usize::from(n);
        let answer = list.andor_step(rows, Instantiables { count }, rest, scratch);
        let Ok(more) = answer else {
            return answer;
        };
        list = more;
        rest = &rest[PartialComplexEntity::ROW * count..];
    }
    Ok(list)
}
