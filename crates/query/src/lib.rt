// Queries: the fields that ask for a scope, a path or a name, and the question of the partial order.
#![tactic(auto)]

ghost use Rattle.std.specs.Prelude.{◌≡◌};
ghost use Rattle.refusal.specs.declared.Reason.TheVariants.{Malformed};
ghost use Rattle.grammar.specs.MeaningReading.Reading.{rust};
ghost use Rattle.sheet.specs.Told.{told_reading};
ghost use Rattle.scope.specs.MeaningScope.{most_steps};
ghost use Rattle.scope.specs.Held.{scope_of, path_in};
ghost use Rattle.query.specs.MeaningQuery.{kind_for, steps_at, scope_query, path_query, resolve_query};
ghost use Rattle.query.specs.Promises.{PromiseOrder};
ghost use Rattle.query.specs.MirrorQuery.{kind_out, step_in, word_in, reached_of, InQuery, moved_to, past_step, past_word, asked_by, name_in};

use refusal::{Reason, Refusal};
use scope::{Path, Rung, Scope, ScopeType, compare};
use sheet::{Field, Reading, field_at, is_name};
use std::cmp::Ordering;

// The steps that stand from a place on, and the place after them.
#[derive(Clone, Copy)]
struct Reached {
    pub scope: Scope,
    pub at: usize,
}

// How far a reader of a query has come, and where the query ends.
#[derive(Clone, Copy)]
struct Place {
    pub at: usize,
    pub end: usize,
}

// What `resolve` is asked: a scope, and where the name stands.
#[derive(Clone, Copy)]
pub struct AskedName {
    pub scope: Scope,
    pub start: usize,
    pub stop: usize,
}

// The kind that a tag stands for.
#[tactic(auto, unfolding(crate::specs::MeaningQuery::tagged, crate::specs::MirrorQuery::kind_out))]
fn kind_for(tag: u8) -> Option<ScopeType>
    ensures { result ≡ kind_out (kind_for tag) }
{
    Some(match tag {
        0x60 => ScopeType::Entity,
        0x61 => ScopeType::Alias,
        0x62 => ScopeType::Function,
        0x63 => ScopeType::Procedure,
        0x64 => ScopeType::Query,
        0x65 => ScopeType::Repeat,
        0x66 => ScopeType::Rule,
        0x67 => ScopeType::Schema,
        0x68 => ScopeType::SubType,
        0x69 => ScopeType::Type,
        _ => return None,
    })
}

// The step that stands at a place.
#[tactic(auto, using(crate::proofs::Standing::standing))]
fn step_at(q: &[u8], at: usize, end: usize) -> Option<Rung>
    requires { InQuery q.now at end }
    ensures { result ≡ step_in q.now at }
{
    let field = field_at(q, at, end)?;
    let kind = kind_for(field.tag)?;
    if !is_name(&q[field.start..field.stop]) {
        return None;
    }
    Some(Rung {
        kind,
        start: field.start,
        stop: field.stop,
    })
}

// The field 10 that stands at a place and holds a name.
#[tactic(auto, using(crate::proofs::Standing::standing))]
fn word_at(q: &[u8], at: usize, end: usize) -> Option<Field>
    requires { InQuery q.now at end }
    ensures { result ≡ word_in q.now at }
{
    let field = field_at(q, at, end)?;
    if field.tag != 0x10 {
        return None;
    }
    if !is_name(&q[field.start..field.stop]) {
        return None;
    }
    Some(field)
}

// The steps that stand from a place on, as many as a scope takes.
#[tactic(auto, using(crate::proofs::Reaching::stepping))]
fn read_steps(q: &[u8], at: usize, end: usize) -> Reached
    requires { InQuery q.now at end }
    ensures { result ≡ reached_of (steps_at most_steps q.now at) }
{
    let mut scope = Scope::root();
    let mut from = at;
    while let Some(step) = step_at(q, from, end) {
        let Some(longer) = scope.pushed(step) else {
            break;
        };
        scope = longer;
        from = step.stop;
    }
    Reached { scope, at: from }
}

// ---- Readers. The place is lent: it moves on past each accepted field, and stays where there is none.

// The steps at the place, at most three.
#[tactic(auto, unfolding(crate::specs::MirrorQuery::reached_of))]
fn next_scope(q: &[u8], place: &mut Place) -> Scope
    requires { InQuery q.now place.old.at place.old.end }
    ensures { (result ≡ scope_of (steps_at most_steps q.now place.old.at).steps) × (place.new ≡ moved_to (steps_at most_steps q.now place.old.at).after place.old) }
{
    let reached = read_steps(q, place.at, place.end);
    place.at = reached.at;
    reached.scope
}

// The step at the place.
#[tactic(auto, unfolding(crate::specs::MirrorQuery::past_of))]
fn next_step(q: &[u8], place: &mut Place) -> Option<Rung>
    requires { InQuery q.now place.old.at place.old.end }
    ensures { (result ≡ step_in q.now place.old.at) × (place.new ≡ past_step q.now place.old) }
{
    let step = step_at(q, place.at, place.end)?;
    place.at = step.stop;
    Some(step)
}

// The name at the place.
#[tactic(auto, unfolding(crate::specs::MirrorQuery::past_of))]
fn next_word(q: &[u8], place: &mut Place) -> Option<Field>
    requires { InQuery q.now place.old.at place.old.end }
    ensures { (result ≡ word_in q.now place.old.at) × (place.new ≡ past_word q.now place.old) }
{
    let word = word_at(q, place.at, place.end)?;
    place.at = word.stop;
    Some(word)
}

// ---- What queries ask for.

// Why a query is refused, and at which place: the first field that is wrong, or the end where one is missing.
fn malformed(at: usize) -> Refusal
    ensures { result ≡ record { reason = Malformed; place = at } }
{
    Refusal::at(Reason::Malformed, at)
}

// A scope query.
#[tactic(auto, unfolding(crate::specs::MeaningQuery::scope_query, crate::specs::MirrorQuery::asked_by, crate::specs::MirrorQuery::reached_of))]
pub fn read_scope(query: &[u8]) -> Result<Scope, Refusal>
    ensures { result ≡ asked_by scope_of (scope_query query.now) }
{
    let reached = read_steps(query, 0, query.len());
    if reached.at != query.len() {
        return Err(malformed(reached.at));
    }
    Ok(reached.scope)
}

// A path query: what stands behind three steps is the item, or else the last step is.
#[tactic(auto, using(crate::proofs::Lent::place_inside, crate::proofs::Routes::routing))]
pub fn read_path(query: &[u8]) -> Result<Path, Refusal>
    ensures { result ≡ asked_by path_in (path_query query.now) }
{
    let mut place = Place {
        at: 0,
        end: query.len(),
    };
    let scope = next_scope(query, &mut place);
    let next = next_step(query, &mut place);
    if place.at != place.end {
        return Err(malformed(place.at));
    }
    if let Some(item) = next {
        return Ok(Path { scope, item });
    }
    let outer = scope.popped().ok_or(malformed(place.at))?;
    let item = scope.last();
    Ok(Path { scope: outer, item })
}

// A `resolve` query: a scope, then a name.
#[tactic(auto, using(crate::proofs::Lent::place_inside, crate::proofs::Asking::asking))]
pub fn read_resolve(query: &[u8]) -> Result<AskedName, Refusal>
    ensures { result ≡ asked_by name_in (resolve_query query.now) }
{
    let mut place = Place {
        at: 0,
        end: query.len(),
    };
    let scope = next_scope(query, &mut place);
    let word = next_word(query, &mut place).ok_or(malformed(place.at))?;
    if place.at != place.end {
        return Err(malformed(place.at));
    }
    Ok(AskedName {
        scope,
        start: word.start,
        stop: word.stop,
    })
}

// ---- The partial order.

// How the scope that the left query asks for stands to the right one's.
pub fn order(left: &[u8], right: &[u8]) -> Result<Option<Ordering>, Refusal>
    ensures { PromiseOrder rust left.now right.now result }
{
    order_in(Reading::Rust, left, right)
}

// The same in a reading that the caller chooses.
#[tactic(auto, using(crate::proofs::Ordering::ordering))]
pub fn order_in(reading: Reading, left: &[u8], right: &[u8]) -> Result<Option<Ordering>, Refusal>
    ensures { PromiseOrder (told_reading reading) left.now right.now result }
{
    let a = read_scope(left)?;
    let b = read_scope(right)?;
    Ok(compare(reading, left, a, right, b))
}
