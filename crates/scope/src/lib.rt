// after espr/src/ir/scope.rs of ruststep cd89e5a7cd, Apache-2.0; changed
//
// Scopes and paths, when names and steps are equal, and the partial order of scopes. A name is a span of the bytes it stands in.
#![tactic(auto)]

ghost use Rattle.std.specs.Prelude.{◌≡◌};
ghost use Rattle.sheet.specs.Told.{told_reading};
ghost use Rattle.scope.specs.MeaningNames.{same_name};
ghost use Rattle.scope.specs.MeaningScope.{place_of, steps_equal, starts, compared};
ghost use Rattle.scope.specs.Told.{told_kind, told_compared, told_step, told_scope};
ghost use Rattle.scope.specs.Held.{no_rung, scope_0};
ghost use Rattle.scope.specs.MirrorScope.{Spans, Fits, pushed_on, popped_from, last_of};

use sheet::Reading;
use std::cmp::Ordering;

#[derive(Clone, Copy, Debug, PartialEq, Eq)]
pub enum ScopeType {
    Entity,
    Alias,
    Function,
    Procedure,
    Query,
    Repeat,
    Rule,
    Schema,
    SubType,
    Type,
}

// One step of a scope, or a path's item: its kind, and where its name stands.
#[derive(Clone, Copy)]
pub struct Rung {
    pub kind: ScopeType,
    pub start: usize,
    pub stop: usize,
}

// The steps from the outermost on; past the last one stand zeros. They are fields, since scopes and paths hold no arrays (docs/ARCHITECTURE.md).
#[derive(Clone, Copy)]
pub struct Scope {
    pub count: usize,
    pub one: Rung,
    pub two: Rung,
    pub three: Rung,
}

#[derive(Clone, Copy)]
pub struct Path {
    pub scope: Scope,
    pub item: Rung,
}

impl ScopeType {
    // Its place in the declaration.
    pub fn place(self) -> u8
        ensures { result ≡ place_of (told_kind self) }
    {
        self as u8
    }
}

impl Rung {
    // What stands past the last step.
    pub fn none() -> Self
        ensures { result ≡ no_rung }
    {
        Self {
            kind: ScopeType::Entity,
            start: 0,
            stop: 0,
        }
    }
}

impl Scope {
    pub fn root() -> Self
        ensures { result ≡ scope_0 }
    {
        let none = Rung::none();
        Self {
            count: 0,
            one: none,
            two: none,
            three: none,
        }
    }

    // The scope with one step more, unless it is full.
    #[tactic(auto, unfolding(crate::specs::MirrorScope::pushed_on))]
    pub fn pushed(self, rung: Rung) -> Option<Self>
        ensures { result ≡ pushed_on self rung }
    {
        match self.count {
            0 => Some(Self {
                count: 1,
                one: rung,
                ..Self::root()
            }),
            1 => Some(Self {
                count: 2,
                one: self.one,
                two: rung,
                ..Self::root()
            }),
            2 => Some(Self {
                count: 3,
                three: rung,
                ..self
            }),
            _ => None,
        }
    }

    // The scope without its last step, unless it is the root.
    #[tactic(auto, unfolding(crate::specs::MirrorScope::popped_from))]
    pub fn popped(self) -> Option<Self>
        ensures { result ≡ popped_from self }
    {
        match self.count {
            0 => None,
            1 => Some(Self::root()),
            2 => Some(Self {
                count: 1,
                one: self.one,
                ..Self::root()
            }),
            _ => Some(Self {
                count: 2,
                three: Rung::none(),
                ..self
            }),
        }
    }

    // The last step; the root has zeros there, since it has never failed (docs/PROMISES.md).
    #[tactic(auto, unfolding(crate::specs::MirrorScope::last_of))]
    pub fn last(self) -> Rung
        ensures { result ≡ last_of self }
    {
        match self.count {
            1 => self.one,
            2 => self.two,
            _ => self.three,
        }
    }
}

impl Path {
    pub fn new(scope: Scope, kind: ScopeType, start: usize, stop: usize) -> Self
        ensures { result ≡ record { scope = scope; item = record { kind = kind; start = start; stop = stop } } }
    {
        let item = Rung { kind, start, stop };
        Self { scope, item }
    }

    pub fn entity(scope: Scope, start: usize, stop: usize) -> Self
        ensures { result ≡ record { scope = scope; item = record { kind = ScopeType.Entity; start = start; stop = stop } } }
    {
        Self::new(scope, ScopeType::Entity, start, stop)
    }
}

// Whether two names are equal. Nothing else compares the bytes of names.
#[tactic(auto, using(crate::proofs::Equality::bytewise), unfolding(crate::specs::MeaningNames::same_name, sheet::specs::Told::told_reading))]
pub fn same_name(reading: Reading, a: &[u8], b: &[u8]) -> bool
    ensures { result ≡ same_name (told_reading reading) a.now b.now }
{
    match reading {
        Reading::Rust => a == b,
    }
}

// ---- The partial order.

// Whether two steps are equal, each in the bytes that its name stands in.
#[tactic(auto, unfolding(crate::specs::MeaningScope::steps_equal, crate::specs::Told::told_step))]
pub fn same_step(reading: Reading, s: &[u8], a: Rung, t: &[u8], b: Rung) -> bool
    requires { Spans s.now a × Spans t.now b }
    ensures { result ≡ steps_equal (told_reading reading) (told_step s.now a) (told_step t.now b) }
{
    if a.kind != b.kind {
        return false;
    }
    same_name(reading, &s[a.start..a.stop], &t[b.start..b.stop])
}

// Whether the second scope starts with the first.
#[tactic(auto, using(crate::proofs::Precedence::starting))]
fn starts_with(reading: Reading, s: &[u8], a: Scope, t: &[u8], b: Scope) -> bool
    requires { Fits s.now a × Fits t.now b }
    ensures { result ≡ starts (told_reading reading) (told_scope s.now a) (told_scope t.now b) }
{
    a.count <= b.count
        && (a.count < 1 || same_step(reading, s, a.one, t, b.one))
        && (a.count < 2 || same_step(reading, s, a.two, t, b.two))
        && (a.count < 3 || same_step(reading, s, a.three, t, b.three))
}

// One scope against another: each starts the other where they are equal, and they have no order where neither does.
#[tactic(auto, unfolding(crate::specs::MeaningScope::compared, crate::specs::Told::told_compared))]
pub fn compare(reading: Reading, s: &[u8], a: Scope, t: &[u8], b: Scope) -> Option<Ordering>
    requires { Fits s.now a × Fits t.now b }
    ensures { told_compared result ≡ compared (told_reading reading) (told_scope s.now a) (told_scope t.now b) }
{
    let starts = starts_with(reading, s, a, t, b);
    let started = starts_with(reading, t, b, s, a);
    match (starts, started) {
        (true, true) => Some(Ordering::Equal),
        (true, false) => Some(Ordering::Greater),
        (false, true) => Some(Ordering::Less),
        (false, false) => None,
    }
}
