// after espr/src/ir/constraints.rs of ruststep cd89e5a7cd, Apache-2.0; changed
//
// What is worked out of a sheet: its records are gathered once, then one supertype after the other is valued.
#![tactic(auto)]

ghost use Rattle.std.specs.Prelude.{◌≡◌, ◌≤◌, eqb, length};
ghost use Rattle.refusal.specs.Told.{told};
ghost use Rattle.sheet.specs.Told.{told_reading};
ghost use Rattle.scope.specs.Told.{told_path};
ghost use Rattle.scope.specs.MirrorScope.{Spans};
ghost use Rattle.declarations.specs.MeaningNamespace.{schemas_in, declaration_for};
ghost use Rattle.merging.specs.MeaningItems.{combined_of};
ghost use Rattle.merging.specs.MirrorStream.{Holds};
ghost use Rattle.supertypes.specs.MeaningWorkspace.{left};
ghost use Rattle.supertypes.specs.MirrorStanding.{Both, Standing, Stood, Gathers, owned_in, owner_in, list_by, list_in, ListedAs};

use combining::combine;
use evaluation::value;
use gathering::{Streams, gather};
use instantiables::Instantiables;
use merging::{Combination, is_owner, owner_at};
use namespace::cleared;
use refusal::{Reason, Refusal};
use resolving::number_for;
use scope::Path;
use sheet::Reading;

// The least workspace.
pub const WORK: usize = 32768;

// The records stand in front; a list is valued behind them.
pub const RECORDS: usize = 2048;

// A combined expression takes no more numbers than all records and one node.
const NODES: usize = 2051;

const MOST_BYTES: usize = 65535;

// ---- Once for as many answers as are wanted: check and gather, then value one supertype after the other.

// What was asked, with the records. The order of refusals: 1; 2; the sheet's faults; what was asked; 6 and 8.
pub fn gathered<T: Copy>(
    reading: Reading,
    sheet: &[u8],
    asked: Result<T, Refusal>,
    workspace: &mut [u16],
) -> Result<(T, Streams), Refusal>
    ensures { Gathers (told_reading reading) sheet.now workspace.old (told asked) result workspace.new }
{
    let long = WORK <= workspace.len();
    let accepted = cleared(reading, sheet, long, asked)?;
    let streams = gather(reading, sheet, &mut workspace[..RECORDS])?;
    Ok((accepted, streams))
}

// The expression of the owner, from the records.
fn combination(
    workspace: &[u16],
    streams: Streams,
    owner: u16,
    nodes: &mut [u16],
) -> Option<Combination>
    requires stood { Stood streams workspace.now }
    requires in_bounds { 2051 ≤ length nodes.old }
    ensures { (b : Both) → Standing b streams workspace.now → Holds (combined_of eqb owner b.0 b.1) nodes.new result }
{
    let Streams { rules, used } = streams;
    combine(&workspace[..rules], &workspace[rules..used], owner, nodes)
}

// The list of the owner's expression, which is built at the front of `nodes`.
fn value_of(
    workspace: &mut [u16],
    streams: Streams,
    owner: u16,
    nodes: &mut [u16],
) -> Result<Instantiables, Refusal>
    requires stood { Stood streams workspace.old }
    requires in_bounds { 2051 ≤ length nodes.old }
    ensures listed { (b : Both) → Standing b streams workspace.old → ListedAs (list_by owner b) result workspace.new }
    ensures stay { (b : Both) → Standing b streams workspace.old → Standing b streams workspace.new }
{
    let Combination { start, stop } = combination(workspace, streams, owner, nodes).ok_or(
        Reason::NoSupertype,
    )?;
    value(&nodes[start..stop], &mut workspace[RECORDS..])
}

// The list of the supertype with the number, in rows behind the records, which stay for the next; 16 where it is none.
pub fn list_of(
    workspace: &mut [u16],
    streams: Streams,
    owner: u16,
) -> Result<Instantiables, Refusal>
    requires { Stood streams workspace.old }
    ensures listed { (b : Both) → Standing b streams workspace.old → ListedAs (list_by owner b) result workspace.new }
    ensures stay { (b : Both) → Standing b streams workspace.old → Standing b streams workspace.new }
{
    let mut nodes = [0u16; NODES];
    value_of(workspace, streams, owner, &mut nodes)
}

// ---- What is asked of the records: a path by its number, or an owner by its place. The workspace stays beside what stands in it: the caller lends it for each call, and reads the lists there.

// Whether the path's number owns a record.
pub fn owns(
    reading: Reading,
    sheet: &[u8],
    query: &[u8],
    path: Path,
    streams: Streams,
    workspace: &[u16],
) -> bool
    requires sheet_len_bound { (length sheet.now ≤ 65535) × Spans query.now path.scope.one × Spans query.now path.item }
    requires stood { Stood streams workspace.now }
    ensures { (b : Both) → Standing b streams workspace.now → result ≡ owned_in (declaration_for (told_reading reading) (schemas_in sheet.now) (told_path query.now path)) b }
{
    // not `is_some_and`: tried, and what its closure asks, that records stand in the workspace, was not proved
    let Some(number) = number_for(reading, sheet, query, path) else {
        return false;
    };
    is_owner(&workspace[..streams.used], number)
}

// The list of the path's number.
#[tactic(auto, using(crate::proofs::Finding::listing))]
pub fn list_at(
    reading: Reading,
    sheet: &[u8],
    query: &[u8],
    path: Path,
    streams: Streams,
    workspace: &mut [u16],
) -> Result<Instantiables, Refusal>
    requires sheet_len_bound { (length sheet.now ≤ 65535) × Spans query.now path.scope.one × Spans query.now path.item }
    requires stood { Stood streams workspace.old }
    ensures { (b : Both) → Standing b streams workspace.old → ListedAs (list_in (declaration_for (told_reading reading) (schemas_in sheet.now) (told_path query.now path)) b) result workspace.new }
{
    let number = number_for(reading, sheet, query, path).ok_or(Reason::NoSupertype)?;
    list_of(workspace, streams, number)
}

// The number-th owner among the records.
#[tactic(auto, using(crate::proofs::Standing::stood, crate::proofs::Finding::counting))]
pub fn count_to(streams: Streams, number: usize, workspace: &[u16]) -> Result<u16, Refusal>
    requires { Stood streams workspace.now }
    ensures { (b : Both) → Standing b streams workspace.now → told result ≡ owner_in number b }
{
    owner_at(&workspace[..streams.used], number).ok_or(Reason::NoNumber.into())
}

// Refusals 1 and 2 leave the workspace; any other answer leaves it all zero.
#[tactic(auto, using(crate::proofs::Standing::settling))]
pub fn settle(sheet: &[u8], workspace: &mut [u16])
    ensures { workspace.new ≡ left sheet.now workspace.old }
{
    if MOST_BYTES < sheet.len() {
        return;
    }
    if workspace.len() < WORK {
        return;
    }
    workspace.fill(0);
}
