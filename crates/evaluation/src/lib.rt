// after espr/src/ir/complex_entity.rs of ruststep cd89e5a7cd, Apache-2.0; changed
//
// The list of an expression: a node calls for its terms, and the terms call back for their nodes.
#![tactic(auto)]

ghost use Rattle.std.specs.Prelude.{◌≡◌, ℕ, ◌+◌, ◌*◌, ◌≤◌, length};
ghost use Rattle.expression.specs.MeaningExpression.{Expr, Terms, eval};
ghost use Rattle.expression.specs.MirrorKinds.{kind_of};
ghost use Rattle.expression.specs.MirrorNodes.{flat, flats, Node, Nodes};
ghost use Rattle.instantiables.specs.Told.{told_listed};
ghost use Rattle.terms.specs.MirrorValues.{Valuing, node_of};

use expression::{Kind, NODE};
use instantiables::Instantiables;
use refusal::Refusal;
use terms::{finished, take_in};

// The depth that evaluation starts with: two calls for each of 6 levels, which no combined expression passes.
pub const DEPTH: usize = 12;

// The list of the expression that stands in `nodes`, at the front of `rows`; `factor` and `scratch` are scratches.
// The depth falls at each call, and a level takes two: one for the node, one for its terms. A level has room for a list, half of it for each call.
#[cycle(eval_node_eval_terms)]
pub fn eval_node(
    nodes: &[u16],
    rows: &mut [u16],
    factor: &mut [u16],
    scratch: &mut [u16],
    depth: usize,
) -> Result<Instantiables, Refusal>
    requires node { Node nodes.now depth }
    requires depth_in_bounds { (832 * depth ≤ length rows.old) × (1664 ≤ length factor.old) × (1664 ≤ length scratch.old) }
    ensures { (e : Expr ℕ) → nodes.now ≡ flat e → Valuing (eval e) rows.new (told_listed result) }
{
    match Kind::from(nodes[0]) {
        Kind::Reference => Ok(Instantiables::single(rows, nodes[1])),
        _ => eval_terms(nodes[0], &nodes[NODE..], rows, factor, scratch, depth - 1),
    }
}

// The list of a node of the kind that this number says, whose terms stand in `terms`. Its own list stands at the front of `rows`, the terms' lists are valued above it.
// A limit that is passed does not end the walk, since a refusal of a later term comes first.
#[cycle(eval_node_eval_terms)]
pub fn eval_terms(
    kind: u16,
    terms: &[u16],
    rows: &mut [u16],
    factor: &mut [u16],
    scratch: &mut [u16],
    depth: usize,
) -> Result<Instantiables, Refusal>
    requires nodes { Nodes terms.now depth }
    requires depth_in_bounds { (832 * (depth + 1) ≤ length rows.old) × (1664 ≤ length factor.old) × (1664 ≤ length scratch.old) }
    ensures { (t : Terms ℕ) → terms.now ≡ flats t → Valuing (node_of (kind_of kind) t) rows.new (told_listed result) }
{
    let mut list = Ok(Instantiables::empty());
    let mut n = 0;
    let mut left = terms;
    // each term says how long it is, so no chunks of one length; an iterator's struct would be no plainer for this one walk
    while !left.is_empty() {
        let (term, behind) = left.split_at(usize::from(left[2]));
        let above = &mut rows[Instantiables::ROOM..];
        let answer = eval_node(term, above, factor, scratch, depth - 1);
        let Ok(new) = answer else {
            return answer;
        };
        list = take_in(kind, n, list, rows, new, factor, scratch);
        n += 1;
        left = behind;
    }
    finished(kind, n, list)
}

// The list of an expression, at the front of `rows`.
pub fn value(nodes: &[u16], rows: &mut [u16]) -> Result<Instantiables, Refusal>
    requires node { Node nodes.now 12 }
    requires in_bounds { 9984 ≤ length rows.old }
    ensures { (e : Expr ℕ) → nodes.now ≡ flat e → Valuing (eval e) rows.new (told_listed result) }
{
    let mut factor = [0u16; Instantiables::ROOM];
    let mut scratch = [0u16; Instantiables::ROOM];
    eval_node(nodes, rows, &mut factor, &mut scratch, DEPTH)
}
