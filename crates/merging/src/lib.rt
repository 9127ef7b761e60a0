// after espr/src/ir/constraints.rs of ruststep cd89e5a7cd, Apache-2.0; changed
//
// Gathering's items in lent memory: records of an owner and the nodes of its expression, and what is asked of them.
#![tactic(auto)]

ghost use Rattle.std.specs.Prelude.{◌≡◌, List, [], ◌++◌, map, ℕ, eqb, length};
ghost use Rattle.std.proofs.Math.ListN.{get_elem?};
ghost use Rattle.expression.specs.MeaningExpression.{end, is_in_some};
ghost use Rattle.merging.specs.MeaningMerging.{Combined, find};
ghost use Rattle.merging.specs.MeaningItems.{exprs_of, all_factors};
ghost use Rattle.merging.specs.MeaningFirsts.{firsts};
ghost use Rattle.merging.specs.MirrorWalk.{left};
ghost use Rattle.merging.specs.MirrorStream.{stream_of, Records, is_found, alone_of, owner_of, RecordsFrom, EntryIs};

use expression::{Kind, NODE, is_in};

// One item: an owner, and the nodes of its expression.
#[derive(Clone, Copy, Debug)]
pub struct Record<'a> {
    pub owner: u16,
    pub nodes: &'a [u16],
}

// A walk over the records of a stream.
#[derive(Clone, Copy, Debug)]
pub struct Walk<'a> {
    rest: &'a [u16],
}

impl<'a> Walk<'a> {
    pub fn of(stream: &'a [u16]) -> Self
        ensures { left result ≡ stream.now }
    {
        Self { rest: stream }
    }
}

impl<'a> Iterator for Walk<'a> {
    ghost use Rattle.std.specs.Iterator.{item_count};
    ghost use Rattle.merging.specs.MirrorWalk.{left, records_of, GivesRecord};

    type Item = Record<'a>;

    ghost next_gives = { GivesRecord };

    ghost remaining = { item_count (λ w. records_of (left w)) };

    // The third number of a record's node says how many numbers follow the owner.
    fn next(&mut self) -> Option<Record<'a>> {
        let (owner, behind) = self.rest.split_first()?;
        let span = behind.get(2)?;
        let (nodes, rest) = behind.split_at_checked(usize::from(*span))?;
        self.rest = rest;
        Some(Record {
            owner: *owner,
            nodes,
        })
    }
}

// Where the expression of an owner stands.
#[derive(Clone, Copy, Debug, PartialEq, Eq)]
pub struct Combination {
    pub start: usize,
    pub stop: usize,
}

// An owner that no earlier record has, and where the record after its first begins.
#[derive(Clone, Copy, Debug, PartialEq, Eq)]
pub struct Entry {
    pub owner: u16,
    pub next: usize,
}

// Whether some record has the owner.
pub fn is_owner(stream: &[u16], owner: u16) -> bool
    requires { Records stream.now }
    ensures { (cs : List (Combined ℕ)) → stream.now ≡ stream_of cs → result ≡ is_found (find eqb owner cs) }
{
    Walk::of(stream).any(|record| record.owner == owner)
}

// Whether the index occurs in some expression of the owner.
pub fn occurs(stream: &[u16], owner: u16, index: u16) -> bool
    requires { Records stream.now }
    ensures { (cs : List (Combined ℕ)) → stream.now ≡ stream_of cs → result ≡ is_in_some eqb index (all_factors (exprs_of eqb owner cs) end) }
{
    Walk::of(stream).any(|record| record.owner == owner && is_in(record.nodes, index))
}

// The next owner in order of first entry, from the record that begins here.
pub fn next_owner(stream: &[u16], from: usize) -> Option<Entry>
    requires { RecordsFrom stream.now from }
    ensures { (cs ds : List (Combined ℕ)) → stream.now ≡ stream_of (cs ++ ds) → from ≡ length (stream_of cs) → EntryIs cs ds result }
{
    let mut at = from;
    for record in Walk::of(&stream[from..]) {
        let next = at + 1 + record.nodes.len();
        if !is_owner(&stream[..at], record.owner) {
            return Some(Entry {
                owner: record.owner,
                next,
            });
        }
        at = next;
    }
    None
}

// The number-th of the owners, in order of first entry.
pub fn owner_at(stream: &[u16], number: usize) -> Option<u16>
    requires { Records stream.now }
    ensures { (cs : List (Combined ℕ)) → stream.now ≡ stream_of cs → result ≡ owner_of (get_elem? (firsts eqb [] (map (λ (c : Combined ℕ). c.owner) cs)) number) }
{
    let mut at = 0;
    for _ in 0..number {
        at = next_owner(stream, at)?.next;
    }
    Some(next_owner(stream, at)?.owner)
}

// Nothing is left over, and all factors end at `stop`: no item; one that is no ANDOR, which stands behind the header; or others.
pub fn alone(rules: &[u16], owner: u16, stop: usize) -> Option<Combination>
    requires { Records rules.now }
    ensures { (cs : List (Combined ℕ)) → rules.now ≡ stream_of cs → result ≡ alone_of (exprs_of eqb owner cs) stop }
{
    let mut own = Walk::of(rules).filter(|record| record.owner == owner);
    let first = own.next()?;
    let is_whole = Kind::from(first.nodes[0]) == Kind::Andor || own.next().is_some();
    let start = if is_whole { 0 } else { NODE };
    Some(Combination { start, stop })
}
