// after espr/src/ir/constraints.rs of ruststep cd89e5a7cd, Apache-2.0; changed
//
// Expressions: nodes in lent memory, what occurs in one, and the numbers of a list's sets.
#![tactic(auto)]

ghost use Rattle.std.specs.Prelude.{◌≡◌, [], ◌∷◌, ◌++◌, ◌+◌, ◌*◌, ◌≤◌, length, take, drop};
ghost use Rattle.refusal.specs.Told.{told};
ghost use Rattle.complex_entity.specs.MirrorParts.{names_of, Makes};
ghost use Rattle.rows.specs.MirrorRows.{parts_at, Stands};
ghost use Rattle.expression.specs.MeaningNumbers.{number_of, set_at};
ghost use Rattle.expression.specs.MirrorKinds.{kind_of, number_of_kind};
ghost use Rattle.expression.specs.MirrorNodes.{scan};

use complex_entity::PartialComplexEntity;
use refusal::{Reason, Refusal};
use rows::place;

// What a node is.
#[derive(Clone, Copy, Debug, PartialEq, Eq)]
pub enum Kind {
    Reference,
    Andor,
    And,
    Oneof,
}

// The number of a kind in lent memory.
impl From<Kind> for u16 {
    ghost from_gives = { λ kind n. n ≡ number_of_kind kind };

    fn from(kind: Kind) -> u16 {
        match kind {
            Kind::Reference => 0,
            Kind::Andor => 1,
            Kind::And => 2,
            Kind::Oneof => 3,
        }
    }
}

// The kind that a number in lent memory says, where every number says one.
impl From<u16> for Kind {
    ghost from_gives = { λ n kind. kind ≡ kind_of n };

    fn from(number: u16) -> Kind {
        match number {
            0 => Kind::Reference,
            1 => Kind::Andor,
            2 => Kind::And,
            _ => Kind::Oneof,
        }
    }
}

// The numbers of a node: its kind, its value, and how many numbers it and all below it take.
pub const NODE: usize = 3;

// A node goes behind those that stand at the front; how many numbers stand there then. Its kind is a number, as it stands there: any number goes.
pub fn put_node(nodes: &mut [u16], used: usize, kind: u16, value: u16, span: u16) -> usize
    requires { used + 3 ≤ length nodes.old }
    ensures { (result ≡ used + 3) × (nodes.new ≡ take used nodes.old ++ ((kind ∷ value ∷ span ∷ []) ++ drop (used + 3) nodes.old)) }
{
    nodes[used] = kind;
    nodes[used + 1] = value;
    nodes[used + 2] = span;
    used + NODE
}

// Whether a reference to the index occurs: a scan, since every node says its kind.
pub fn is_in(nodes: &[u16], index: u16) -> bool
    ensures { result ≡ scan index nodes.now }
{
    nodes.chunks_exact(NODE).any(|node| Kind::from(node[0]) == Kind::Reference && node[1] == index)
}

// Row to number: a set's number is its place in the list.
pub fn number_of(rows: &[u16], count: usize, part: PartialComplexEntity) -> Result<usize, Refusal>
    requires { Stands rows.now count }
    ensures { told result ≡ number_of (parts_at count rows.now) (names_of part) }
{
    place(rows, count, part.as_slice()).or(Err(Reason::NoNumber.into()))
}

// Number to row, as the part that stands there.
pub fn set_at(rows: &[u16], count: usize, number: usize) -> Result<PartialComplexEntity, Refusal>
    requires { 13 * count ≤ length rows.now }
    ensures { Makes (set_at (parts_at count rows.now) number) result }
{
    if count <= number {
        return Err(Reason::NoNumber.into());
    }
    Ok(PartialComplexEntity::read(rows, PartialComplexEntity::ROW * number))
}
