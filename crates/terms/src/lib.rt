// after espr/src/ir/complex_entity.rs of ruststep cd89e5a7cd, Apache-2.0; changed
//
// The terms of a node: the list of each is taken into the node's list by the node's kind, and at the end come the refusals of the node.
#![tactic(auto)]

ghost use Rattle.std.specs.Prelude.{◌≡◌, ◌≤◌, length, drop};
ghost use Rattle.expression.specs.MirrorKinds.{kind_of};
ghost use Rattle.rows.specs.MirrorRows.{parts_at, Stands};
ghost use Rattle.instantiables.specs.MirrorRows.{Sets};
ghost use Rattle.instantiables.specs.Told.{told_listed};
ghost use Rattle.terms.specs.MirrorValues.{Valuing, list_at, Ready, with_term, fewest, refusal_of, unless};

use expression::Kind;
use instantiables::Instantiables;
use refusal::{Reason, Refusal};
use rows::copy;

// One term more, whose list stands above the node's own: it is copied out, since one slice is lent at a time.
pub fn take_in(
    kind: u16,
    n: usize,
    list: Result<Instantiables, Refusal>,
    rows: &mut [u16],
    term: Instantiables,
    factor: &mut [u16],
    scratch: &mut [u16],
) -> Result<Instantiables, Refusal>
    requires ready { Ready list rows.old × Stands (drop 1664 rows.old) term.count × Sets (parts_at term.count (drop 1664 rows.old)) }
    requires in_bounds { (1664 ≤ length factor.old) × (1664 ≤ length scratch.old) }
    ensures { Valuing (with_term (kind_of kind) n (list_at list rows.old) (parts_at term.count (drop 1664 rows.old))) rows.new (told_listed result) }
{
    let Ok(own) = list else {
        return list;
    };
    copy(factor, &rows[Instantiables::ROOM..], 13 * term.count);
    match Kind::from(kind) {
        Kind::Andor => own.andor_step(rows, term, factor, scratch),
        Kind::And if n == 0 => {
            copy(rows, factor, 13 * term.count);
            Ok(term)
        }
        Kind::And => {
            copy(scratch, rows, 13 * own.count);
            Instantiables::bitand(rows, own, scratch, term, factor)
        }
        Kind::Reference | Kind::Oneof => own.add(rows, term, factor),
    }
}

// A node of the kind has so many terms at least.
fn fewest(kind: Kind) -> usize
    ensures { result ≡ fewest kind }
{
    match kind {
        Kind::And => 2,
        Kind::Andor => 1,
        Kind::Reference | Kind::Oneof => 0,
    }
}

// All n terms are taken in: 9, then 10, then what became of the list.
pub fn finished(
    kind: u16,
    n: usize,
    list: Result<Instantiables, Refusal>,
) -> Result<Instantiables, Refusal>
    ensures { told_listed result ≡ unless (refusal_of (kind_of kind) n) (told_listed list) }
{
    let kind = Kind::from(kind);
    if n < fewest(kind) {
        return Err(Reason::TooFewTerms.into());
    }
    if kind == Kind::Andor && Instantiables::FACTORS < n {
        return Err(Reason::TooManyFactors.into());
    }
    list
}
