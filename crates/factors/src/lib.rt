// after espr/src/ir/constraints.rs of ruststep cd89e5a7cd, Apache-2.0; changed
//
// The factors of an owner's expression, put into lent memory: those of its rules and constraints, and its subtypes that are left over.
#![tactic(auto)]

ghost use Rattle.std.specs.Prelude.{◌≡◌, List, ℕ, ◌+◌, ◌≤◌, eqb, length};
ghost use Rattle.expression.specs.MeaningExpression.{Expr, end, factors};
ghost use Rattle.expression.specs.MirrorNodes.{flat, flats};
ghost use Rattle.merging.specs.MeaningMerging.{Combined, Pair, references};
ghost use Rattle.merging.specs.MeaningItems.{exprs_of, subs_of, all_factors, fresh};
ghost use Rattle.merging.specs.MirrorStream.{stream_of, pairs_of, Records, Pairs, Item, Appended};

use expression::{Kind, NODE, put_node};
use merging::{Walk, occurs};

// Numbers go behind those that are used.
fn append(numbers: &[u16], nodes: &mut [u16], used: usize) -> usize
    requires { used + length numbers.now ≤ length nodes.old }
    ensures { Appended numbers.now nodes.old nodes.new used result }
{
    let stop = used + numbers.len();
    nodes[used..stop].copy_from_slice(numbers);
    stop
}

// The factors that an item brings go behind the numbers that are used: the terms of an ANDOR, or the item itself.
fn put_factors(item: &[u16], nodes: &mut [u16], used: usize) -> usize
    requires item { Item item.now }
    requires item_in_bounds { used + length item.now ≤ length nodes.old }
    ensures { (e : Expr ℕ) → item.now ≡ flat e → Appended (flats (factors e)) nodes.old nodes.new used result }
{
    match Kind::from(item[0]) {
        Kind::Andor => append(&item[NODE..], nodes, used),
        _ => append(item, nodes, used),
    }
}

// The factors of all items of the owner, in order.
pub fn put_rules(rules: &[u16], owner: u16, nodes: &mut [u16], used: usize) -> usize
    requires records { Records rules.now }
    requires rules_in_bounds { used + length rules.now ≤ length nodes.old }
    ensures { (cs : List (Combined ℕ)) → rules.now ≡ stream_of cs → Appended (flats (all_factors (exprs_of eqb owner cs) end)) nodes.old nodes.new used result }
{
    let mut stop = used;
    for record in Walk::of(rules) {
        if record.owner == owner {
            stop = put_factors(record.nodes, nodes, stop);
        }
    }
    stop
}

// A reference to each subtype of the owner that occurs in none of its expressions.
pub fn put_fresh(rules: &[u16], pairs: &[u16], owner: u16, nodes: &mut [u16], used: usize) -> usize
    requires records { Records rules.now }
    requires pairs { Pairs pairs.now }
    requires pairs_in_bounds { used + length pairs.now ≤ length nodes.old }
    ensures { (cs : List (Combined ℕ)) (xs : List (Pair ℕ)) → rules.now ≡ stream_of cs → pairs.now ≡ pairs_of xs → Appended (flats (references (fresh eqb (exprs_of eqb owner cs) (subs_of eqb owner xs)))) nodes.old nodes.new used result }
{
    let mut stop = used;
    for pair in Walk::of(pairs) {
        let sub = pair.nodes[1];
        if pair.owner == owner && !occurs(rules, owner, sub) {
            stop = put_node(nodes, stop, u16::from(Kind::Reference), sub, NODE as u16);
        }
    }
    stop
}
