// after espr/src/ir/complex_entity.rs of ruststep cd89e5a7cd, Apache-2.0; changed
//
// Rows of a list that are kept where they stand: `-` and `/`.
#![tactic(auto)]

ghost use Rattle.std.specs.Prelude.{◌≡◌, Bool, ◌*◌, ◌≤◌, length};
ghost use Rattle.refusal.specs.MeaningAnswer.{done};
ghost use Rattle.complex_entity.specs.MeaningParts.{Part, contains};
ghost use Rattle.complex_entity.specs.MeaningLists.{keep, sub, div, any, equal};
ghost use Rattle.complex_entity.specs.MirrorParts.{names_of};
ghost use Rattle.rows.specs.MirrorRows.{parts_at};
ghost use Rattle.instantiables.specs.MirrorRows.{Listing};
ghost use Rattle.keeping.specs.MirrorKeeping.{Tells};

use complex_entity::PartialComplexEntity;
use instantiables::Instantiables;

// [A1, A2, B1, B2] - [A2, B1] = [A1, B2]
pub fn sub(
    list: Instantiables,
    rows: &mut [u16],
    other: Instantiables,
    others: &[u16],
) -> Instantiables
    requires { (13 * list.count ≤ length rows.old) × (13 * other.count ≤ length others.now) }
    ensures { Listing (done (sub (parts_at list.count rows.old) (parts_at other.count others.now))) rows.old rows.new (done result.count) }
{
    keep(list, rows, |part| !has(other, others, part))
}

// [A, A & B, A & C, A & B & D, B & C, D] / [B, D] = [A & B, A & B & D, B & C, D]
pub fn div(
    list: Instantiables,
    rows: &mut [u16],
    other: Instantiables,
    others: &[u16],
) -> Instantiables
    requires { (13 * list.count ≤ length rows.old) × (13 * other.count ≤ length others.now) }
    ensures { Listing (done (div (parts_at list.count rows.old) (parts_at other.count others.now))) rows.old rows.new (done result.count) }
{
    keep(list, rows, |part| some_in(other, others, part))
}

// The parts that are wanted go to the front, in their order.
fn keep<F: Fn(PartialComplexEntity) -> bool>(
    list: Instantiables,
    rows: &mut [u16],
    wanted: F,
) -> Instantiables
    requires callable { F.IsAlwaysCallable wanted }
    requires in_bounds { 13 * list.count ≤ length rows.old }
    ensures { (test : Part → Bool) → Tells (F.post wanted) test → Listing (done (keep test (parts_at list.count rows.old))) rows.old rows.new (done result.count) }
{
    // The rows are read and written in one slice, so no iterator lends them; `kept` counts what is written.
    let mut kept = 0;
    for i in 0..list.count {
        let part = PartialComplexEntity::read(rows, PartialComplexEntity::ROW * i);
        if wanted(part) {
            part.put(rows, PartialComplexEntity::ROW * kept);
            kept += 1;
        }
    }
    Instantiables { count: kept }
}

// The list has an equal part.
pub fn has(list: Instantiables, rows: &[u16], part: PartialComplexEntity) -> bool
    requires { 13 * list.count ≤ length rows.now }
    ensures { result ≡ any (equal (names_of part)) (parts_at list.count rows.now) }
{
    (0..list.count).any(|i| {
        part.as_slice() == PartialComplexEntity::names_at(rows, PartialComplexEntity::ROW * i)
    })
}

// The part contains one of the list's.
pub fn some_in(list: Instantiables, rows: &[u16], part: PartialComplexEntity) -> bool
    requires { 13 * list.count ≤ length rows.now }
    ensures { result ≡ any (contains (names_of part)) (parts_at list.count rows.now) }
{
    (0..list.count).any(|i| {
        part.contains(PartialComplexEntity::read(rows, PartialComplexEntity::ROW * i))
    })
}
