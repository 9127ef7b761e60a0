// after espr/src/ir/complex_entity.rs of ruststep cd89e5a7cd, Apache-2.0; changed
//
// Parts from the indices that a caller lists.
#![tactic(auto)]

ghost use Rattle.std.specs.Prelude.{◌≡◌};
ghost use Rattle.complex_entity.specs.MeaningParts.{dedup, bad_after, new_of};
ghost use Rattle.complex_entity.specs.MirrorParts.{narrowed, Makes};
ghost use Rattle.indices.specs.MirrorIndices.{spotted_of};

use complex_entity::PartialComplexEntity;
use refusal::{Reason, Refusal};

// The part of some indices: repeats beside each other are dropped.
pub fn new(indices: &[u16]) -> Result<PartialComplexEntity, Refusal>
    ensures { Makes (new_of indices.now) result }
{
    match first_bad(indices) {
        Some(place) => Err(Refusal::at(Reason::Malformed, place)),
        None => distinct(indices),
    }
}

// The place of the first index that falls or is over the last one.
fn first_bad(indices: &[u16]) -> Option<usize>
    ensures { result ≡ spotted_of (bad_after 0 indices.now) }
{
    let mut before = 0;
    for (i, index) in indices.iter().enumerate() {
        if *index < before || PartialComplexEntity::LAST < *index {
            return Some(i);
        }
        before = *index;
    }
    None
}

// The indices without repeats beside each other.
fn distinct(indices: &[u16]) -> Result<PartialComplexEntity, Refusal>
    ensures { Makes (narrowed (dedup indices.now)) result }
{
    let mut names = [0u16; PartialComplexEntity::LIMIT];
    let mut n = 0;
    let mut last = None;
    for index in indices {
        if last == Some(*index) {
            continue;
        }
        if n >= PartialComplexEntity::LIMIT {
            return Err(Reason::TooManySets.into());
        }
        names[n] = *index;
        n += 1;
        last = Some(*index);
    }
    Ok(PartialComplexEntity { n, names })
}
