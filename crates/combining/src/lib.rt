// after espr/src/ir/constraints.rs of ruststep cd89e5a7cd, Apache-2.0; changed
//
// What rules, constraints and subtypes of one supertype make together.
#![tactic(auto)]

ghost use Rattle.std.specs.Prelude.{◌≡◌, List, ℕ, ◌+◌, ◌≤◌, ◌<◌, ◌^◌, eqb, length};
ghost use Rattle.merging.specs.MeaningMerging.{Combined, Pair};
ghost use Rattle.merging.specs.MeaningItems.{combined_of};
ghost use Rattle.merging.specs.MirrorStream.{stream_of, pairs_of, Records, Pairs, Holds};

use expression::{Kind, put_node};
use factors::{put_fresh, put_rules};
use merging::{Combination, alone};

// The expression of the owner, built at the front of `nodes` from its own records.
pub fn combine(rules: &[u16], pairs: &[u16], owner: u16, nodes: &mut [u16]) -> Option<Combination>
    requires records { Records rules.now }
    requires pairs { Pairs pairs.now }
    requires pairs_in_bounds { (3 + length rules.now + length pairs.now ≤ length nodes.old) × (3 + length rules.now + length pairs.now < 2 ^ 16) }
    ensures { (cs : List (Combined ℕ)) (xs : List (Pair ℕ)) → rules.now ≡ stream_of cs → pairs.now ≡ pairs_of xs → Holds (combined_of eqb owner cs xs) nodes.new result }
{
    let body = put_node(nodes, 0, u16::from(Kind::Andor), 0, 0);
    let middle = put_rules(rules, owner, nodes, body);
    let stop = put_fresh(rules, pairs, owner, nodes, middle);
    // how many numbers stand under the header is known now
    nodes[2] = stop as u16;
    if stop == middle {
        return alone(rules, owner, stop);
    }
    Some(Combination { start: 0, stop })
}
