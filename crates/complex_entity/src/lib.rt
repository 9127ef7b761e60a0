// after espr/src/ir/complex_entity.rs of ruststep cd89e5a7cd, Apache-2.0; changed
//
// Parts: a partial complex entity is a set of at most 12 names, each an index, in rising order.
#![tactic(auto)]

ghost use Rattle.std.specs.Prelude.{◌≡◌, [], ◌∷◌, ◌+◌, ◌≤◌, length, drop};
ghost use Rattle.std.proofs.Math.Seq.{paste};
ghost use Rattle.complex_entity.specs.MeaningParts.{order, has_name, contains};
ghost use Rattle.complex_entity.specs.MeaningRows.{row_of};
ghost use Rattle.complex_entity.specs.Told.{told_order};
ghost use Rattle.complex_entity.specs.MirrorParts.{names_of, part_of, narrowed, Makes, merge, turn_of, part_at};

use refusal::{Reason, Refusal};
use std::cmp::Ordering;

// `n` names at the front, zeros after them.
#[derive(Clone, Copy)]
pub struct PartialComplexEntity {
    pub n: usize,
    pub names: [u16; 12],
}

impl PartialComplexEntity {
    // A part has at most so many names.
    pub const LIMIT: usize = 12;
    // The numbers of a row: a count and the names.
    pub const ROW: usize = 13;
    // The greatest index.
    pub const LAST: u16 = 255;

    // The part of one index.
    pub fn single(index: u16) -> Self
        ensures { result ≡ part_of (index ∷ []) }
    {
        let mut names = [0u16; Self::LIMIT];
        names[0] = index;
        Self { n: 1, names }
    }

    // The names: at most 12, however large the count.
    pub fn as_slice(&self) -> &[u16]
        ensures { result.now ≡ names_of self.now }
    {
        &self.names[..self.n.min(Self::LIMIT)]
    }

    // The names of the row at a place, which are not copied.
    pub fn names_at(rows: &[u16], at: usize) -> &[u16]
        requires { at + 13 ≤ length rows.now }
        ensures { result.now ≡ part_at (drop at rows.now) }
    {
        let n = usize::from(rows[at]).min(Self::LIMIT);
        &rows[at + 1..at + 1 + n]
    }

    // Fewer names first, then the lists of names compared.
    // By two tests and one by one: what is done then goes by the test, where with `cmp` it would go by its answer, which is made and tested again.
    pub fn order(names: &[u16], others: &[u16]) -> Ordering
        ensures { told_order result ≡ order names.now others.now }
    {
        if names.len() < others.len() {
            return Ordering::Less;
        }
        if others.len() < names.len() {
            return Ordering::Greater;
        }
        for (x, y) in names.iter().zip(others) {
            if *x < *y {
                return Ordering::Less;
            }
            if *y < *x {
                return Ordering::Greater;
            }
        }
        Ordering::Equal
    }

    pub fn compare(self, other: Self) -> Ordering
        ensures { told_order result ≡ order (names_of self) (names_of other) }
    {
        Self::order(self.as_slice(), other.as_slice())
    }

    pub fn has(self, index: u16) -> bool
        ensures { result ≡ has_name (names_of self) index }
    {
        self.as_slice().contains(&index)
    }

    // Each name of the other part is a name of this one.
    pub fn contains(self, other: Self) -> bool
        ensures { result ≡ contains (names_of self) (names_of other) }
    {
        let names = self.as_slice();
        other.as_slice().iter().all(|name| names.contains(name))
    }

    // The names of both.
    pub fn join(self, other: Self) -> Result<Self, Refusal>
        ensures { Makes (narrowed (merge (names_of self) (names_of other))) result }
    {
        Self::merged(self.as_slice(), other.as_slice())
    }

    // Two lists of names are walked together, and the names that are taken make the part.
    pub fn merged(left: &[u16], right: &[u16]) -> Result<Self, Refusal>
        ensures { Makes (narrowed (merge left.now right.now)) result }
    {
        let mut names = [0u16; Self::LIMIT];
        let mut n = 0;
        let mut i = 0;
        let mut j = 0;
        while let Some((name, next, other)) = Self::turn_at(left, i, right, j) {
            if n >= Self::LIMIT {
                return Err(Reason::TooManySets.into());
            }
            names[n] = name;
            n += 1;
            i = next;
            j = other;
        }
        Ok(Self { n, names })
    }

    // One turn takes the least name that is left, from both lists where both have it, and says where each is read on from then.
    fn turn_at(left: &[u16], i: usize, right: &[u16], j: usize) -> Option<(u16, usize, usize)>
        ensures { result ≡ turn_of i j (drop i left.now) (drop j right.now) }
    {
        match (left.get(i), right.get(j)) {
            (None, None) => None,
            (Some(x), None) => Some((*x, i + 1, j)),
            (None, Some(y)) => Some((*y, i, j + 1)),
            (Some(x), Some(y)) => {
                if *x < *y {
                    Some((*x, i + 1, j))
                } else if *y < *x {
                    Some((*y, i, j + 1))
                } else {
                    Some((*x, i + 1, j + 1))
                }
            }
        }
    }

    // The part of the row that begins at a place.
    pub fn read(rows: &[u16], at: usize) -> Self
        requires { at + 13 ≤ length rows.now }
        ensures { result ≡ part_of (part_at (drop at rows.now)) }
    {
        Self::of(Self::names_at(rows, at))
    }

    // The part of some names.
    fn of(names: &[u16]) -> Self
        requires { length names.now ≤ 12 }
        ensures { result ≡ part_of names.now }
    {
        let mut all = [0u16; Self::LIMIT];
        all[..names.len()].copy_from_slice(names);
        Self {
            n: names.len(),
            names: all,
        }
    }

    // The same part, with zeros after its names.
    pub fn padded(self) -> Self
        ensures { result ≡ part_of (names_of self) }
    {
        Self::of(self.as_slice())
    }

    // The part's row goes to a place: a count, the names, zeros.
    pub fn write(self, rows: &mut [u16], at: usize)
        requires { at + 13 ≤ length rows.old }
        ensures { rows.new ≡ paste rows.old at (row_of (names_of self)) 13 }
    {
        self.padded().put(rows, at);
    }

    // The same where zeros stand after the part's names: its numbers go as they are, an array as a whole.
    pub fn put(self, rows: &mut [u16], at: usize)
        requires { (at + 13 ≤ length rows.old) × (self ≡ part_of (names_of self)) }
        ensures { rows.new ≡ paste rows.old at (row_of (names_of self)) 13 }
    {
        let row = &mut rows[at..at + Self::ROW];
        row[0] = self.n as u16;
        row[1..].copy_from_slice(&self.names);
    }
}
