// after espr/src/ir/complex_entity.rs of ruststep cd89e5a7cd, Apache-2.0; changed
//
// Lists of parts as rows of 13 numbers at the front of a lent slice, worked on in place.
#![tactic(auto)]

ghost use Rattle.std.specs.Prelude.{◌≡◌, [], ◌∷◌, ◌+◌, ◌*◌, ◌≤◌, length, drop};
ghost use Rattle.complex_entity.specs.MeaningLists.{add, joins, bitand, held};
ghost use Rattle.complex_entity.specs.MirrorParts.{names_of, part_of, part_at};
ghost use Rattle.rows.specs.MirrorRows.{parts_at, Stands, Put};
ghost use Rattle.instantiables.specs.MirrorRows.{Sets, Listing};
ghost use Rattle.complex_entity.specs.MirrorLists.{grown};
ghost use Rattle.instantiables.specs.Told.{told_listed};

use complex_entity::PartialComplexEntity;
use refusal::{Reason, Refusal};
use rows::{merge, place_last, raise, together};
use std::cmp::Ordering;

// A list of parts: so many rows at the front of the slice that is lent beside it.
// The count is what a question answers to C, whose buffer the rows stand in, so it stands without them.
#[derive(Clone, Copy, Debug, PartialEq, Eq)]
pub struct Instantiables {
    pub count: usize,
}

impl Instantiables {
    // A list has at most so many parts.
    pub const LIMIT: usize = 128;
    // The numbers of that many rows.
    pub const ROOM: usize = 1664;
    // An ANDOR has at most so many factors.
    pub const FACTORS: usize = 12;

    // The list of no parts.
    pub fn empty() -> Self
        ensures { result ≡ record { count = 0 } }
    {
        Self { count: 0 }
    }

    // The list of one part of one name.
    pub fn single(rows: &mut [u16], index: u16) -> Self
        requires { 13 ≤ length rows.old }
        ensures { (result ≡ record { count = 1 }) × Put ((index ∷ []) ∷ []) rows.old rows.new }
    {
        PartialComplexEntity::single(index).put(rows, 0);
        Self { count: 1 }
    }

    // [A, B] + C = [A, B, C]
    pub fn add_part(self, rows: &mut [u16], part: PartialComplexEntity) -> Result<Self, Refusal>
        requires { Stands rows.old self.count }
        ensures { Listing (held (add (parts_at self.count rows.old) (names_of part ∷ []))) rows.old rows.new (told_listed result) }
    {
        self.add_padded(rows, part.padded())
    }

    // The same of a part that has zeros after its names, as each has that is read or joined.
    fn add_padded(self, rows: &mut [u16], part: PartialComplexEntity) -> Result<Self, Refusal>
        requires { Stands rows.old self.count × (part ≡ part_of (names_of part)) }
        ensures { Listing (held (add (parts_at self.count rows.old) (names_of part ∷ []))) rows.old rows.new (told_listed result) }
    {
        // the count by itself, which is there before names that were just written one by one
        let PartialComplexEntity { n, names } = part;
        let Err(i) = place_last(rows, self.count, &names[..n]) else {
            return Ok(self);
        };
        if self.count >= Self::LIMIT {
            return Err(Reason::TooManySets.into());
        }
        let at = PartialComplexEntity::ROW * i;
        raise(
            rows,
            at,
            at + PartialComplexEntity::ROW,
            PartialComplexEntity::ROW * self.count - at,
        );
        part.put(rows, at);
        Ok(Self {
            count: self.count + 1,
        })
    }

    // [A, B] + [C, D] = [A, B, C, D]
    pub fn add(self, rows: &mut [u16], other: Self, others: &[u16]) -> Result<Self, Refusal>
        requires { Stands rows.old self.count × (13 * other.count ≤ length others.now) }
        ensures { Listing (held (add (parts_at self.count rows.old) (parts_at other.count others.now))) rows.old rows.new (told_listed result) }
    {
        let mut list = self;
        for i in 0..other.count {
            let part = PartialComplexEntity::read(others, PartialComplexEntity::ROW * i);
            let answer = list.add_padded(rows, part);
            let Ok(more) = answer else {
                return answer;
            };
            list = more;
        }
        Ok(list)
    }

    // The joins of the row at a place with each of a list's are added.
    pub fn add_joins_with(
        self,
        rows: &mut [u16],
        lefts: &[u16],
        from: usize,
        other: Self,
        others: &[u16],
    ) -> Result<Self, Refusal>
        requires stands { Stands rows.old self.count × (from + 13 ≤ length lefts.now) × (13 * other.count ≤ length others.now) }
        requires sets { Sets (part_at (drop from lefts.now) ∷ []) × Sets (parts_at other.count others.now) }
        ensures { Listing (held (add (parts_at self.count rows.old) (joins (part_at (drop from lefts.now) ∷ []) (parts_at other.count others.now)))) rows.old rows.new (told_listed result) }
    {
        let mut list = self;
        let names = PartialComplexEntity::names_at(lefts, from);
        for i in 0..other.count {
            let others_names = PartialComplexEntity::names_at(
                others,
                PartialComplexEntity::ROW * i,
            );
            let part = PartialComplexEntity::merged(names, others_names)?;
            let answer = list.add_padded(rows, part);
            let Ok(more) = answer else {
                return answer;
            };
            list = more;
        }
        Ok(list)
    }

    // The joins of each part of one list with each of another are added.
    pub fn add_joins(
        self,
        rows: &mut [u16],
        left: Self,
        lefts: &[u16],
        right: Self,
        rights: &[u16],
    ) -> Result<Self, Refusal>
        requires stands { Stands rows.old self.count × (13 * left.count ≤ length lefts.now) × (13 * right.count ≤ length rights.now) }
        requires sets { Sets (parts_at left.count lefts.now) × Sets (parts_at right.count rights.now) }
        ensures { Listing (held (add (parts_at self.count rows.old) (joins (parts_at left.count lefts.now) (parts_at right.count rights.now)))) rows.old rows.new (told_listed result) }
    {
        let mut list = self;
        for i in 0..left.count {
            let from = PartialComplexEntity::ROW * i;
            let answer = list.add_joins_with(rows, lefts, from, right, rights);
            let Ok(more) = answer else {
                return answer;
            };
            list = more;
        }
        Ok(list)
    }

    // [A, B] & [C, D] = [A & C, A & D, B & C, B & D]
    pub fn bitand(
        rows: &mut [u16],
        left: Self,
        lefts: &[u16],
        right: Self,
        rights: &[u16],
    ) -> Result<Self, Refusal>
        requires in_bounds { (1664 ≤ length rows.old) × (13 * left.count ≤ length lefts.now) × (13 * right.count ≤ length rights.now) }
        requires sets { Sets (parts_at left.count lefts.now) × Sets (parts_at right.count rights.now) }
        ensures { Listing (held (bitand (parts_at left.count lefts.now) (parts_at right.count rights.now))) rows.old rows.new (told_listed result) }
    {
        Self::empty().add_joins(rows, left, lefts, right, rights)
    }

    // One factor more of an ANDOR: its parts and the joins are gathered in a scratch that is lent.
    pub fn andor_step(
        self,
        rows: &mut [u16],
        factor: Self,
        factors: &[u16],
        scratch: &mut [u16],
    ) -> Result<Self, Refusal>
        requires stands { Stands rows.old self.count × (13 * factor.count ≤ length factors.now) × (1664 ≤ length scratch.old) }
        requires sets { Sets (parts_at self.count rows.old) × Sets (parts_at factor.count factors.now) }
        ensures { Listing (held (grown (parts_at self.count rows.old) (parts_at factor.count factors.now))) rows.old rows.new (told_listed result) }
    {
        let answer = Self::with_joins(scratch, factor, factors, self, rows);
        let Ok(more) = answer else {
            return answer;
        };
        self.unite(rows, more, scratch)
    }

    // A list's parts, and the joins of another's with them.
    fn with_joins(
        rows: &mut [u16],
        own: Self,
        owns: &[u16],
        left: Self,
        lefts: &[u16],
    ) -> Result<Self, Refusal>
        requires in_bounds { (1664 ≤ length rows.old) × (13 * own.count ≤ length owns.now) × (13 * left.count ≤ length lefts.now) }
        requires sets { Sets (parts_at own.count owns.now) × Sets (parts_at left.count lefts.now) }
        ensures { Listing (held (add (parts_at own.count owns.now) (joins (parts_at left.count lefts.now) (parts_at own.count owns.now)))) rows.old rows.new (told_listed result) }
    {
        let answer = Self::empty().add(rows, own, owns);
        let Ok(list) = answer else {
            return answer;
        };
        list.add_joins(rows, left, lefts, own, owns)
    }

    // The same as `add` where both lists are sorted: each row moves at most once.
    pub fn unite(self, rows: &mut [u16], other: Self, others: &[u16]) -> Result<Self, Refusal>
        requires { Stands rows.old self.count × Stands others.now other.count }
        ensures { Listing (held (add (parts_at self.count rows.old) (parts_at other.count others.now))) rows.old rows.new (told_listed result) }
    {
        let mut steps = [Ordering::Equal; 256];
        let total = together(rows, self.count, others, other.count, &mut steps);
        if Self::LIMIT < total {
            return Err(Reason::TooManySets.into());
        }
        merge(rows, self.count, others, other.count, total, &steps);
        Ok(Self { count: total })
    }
}
