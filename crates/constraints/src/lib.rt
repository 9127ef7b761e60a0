// after espr/src/ir/constraints.rs of ruststep cd89e5a7cd, Apache-2.0; changed
//
// The questions about supertypes: which there are, their lists, and the numbers of the sets in a list.
#![tactic(auto)]

ghost use Rattle.std.specs.Prelude.{◌≡◌, IfOk};
ghost use Rattle.refusal.specs.MeaningAnswer.{mapped};
ghost use Rattle.refusal.specs.Told.{told_by};
ghost use Rattle.grammar.specs.MeaningReading.Reading.{rust};
ghost use Rattle.sheet.specs.Told.{told_reading};
ghost use Rattle.scope.specs.MirrorScope.{Spans};
ghost use Rattle.complex_entity.specs.MirrorParts.{names_of};
ghost use Rattle.operands.specs.MeaningOperands.{read_part, part};
ghost use Rattle.supertypes.specs.MeaningWorkspace.{left};
ghost use Rattle.constraints.specs.MirrorAsked.{path_and_part, told_both};
ghost use Rattle.constraints.specs.Promises.{PromiseSupertype, PromiseList, PromiseRow, PromiseNumber, PromiseKth};

use complex_entity::PartialComplexEntity;
use expression::{number_of as number_in, set_at};
use instantiables::Instantiables;
use operands::{Operand, Part, hand_out, hand_out_part};
use query::read_path;
use refusal::{Reason, Refusal};
use scope::Path;
use sheet::Reading;
use supertypes::{RECORDS, count_to, gathered, list_at, owns, settle};

// ---- The questions. Each works out its answer, and then settles the workspace; until then its promise is of what is left.

// Whether the path is a supertype.
pub fn is_supertype(sheet: &[u8], query: &[u8], workspace: &mut [u16]) -> Result<bool, Refusal>
    ensures { PromiseSupertype rust sheet.now query.now workspace.old result workspace.new }
{
    is_supertype_in(Reading::Rust, sheet, query, workspace)
}

// The same in a reading that the caller chooses.
pub fn is_supertype_in(
    reading: Reading,
    sheet: &[u8],
    query: &[u8],
    workspace: &mut [u16],
) -> Result<bool, Refusal>
    ensures { PromiseSupertype (told_reading reading) sheet.now query.now workspace.old result workspace.new }
{
    let decision = decided(reading, sheet, query, workspace);
    settle(sheet, workspace);
    decision
}

fn decided(
    reading: Reading,
    sheet: &[u8],
    query: &[u8],
    workspace: &mut [u16],
) -> Result<bool, Refusal>
    ensures { PromiseSupertype (told_reading reading) sheet.now query.now workspace.old result (left sheet.now workspace.new) }
{
    let (path, streams) = gathered(reading, sheet, read_path(query), workspace)?;
    Ok(owns(reading, sheet, query, path, streams, workspace))
}

// The supertype's list, into a lent buffer.
pub fn list(
    sheet: &[u8],
    query: &[u8],
    workspace: &mut [u16],
    out: &mut [u16],
) -> Result<Instantiables, Refusal>
    ensures { PromiseList rust sheet.now query.now workspace.old out.old result workspace.new out.new }
{
    list_in(Reading::Rust, sheet, query, workspace, out)
}

// The same in a reading that the caller chooses.
pub fn list_in(
    reading: Reading,
    sheet: &[u8],
    query: &[u8],
    workspace: &mut [u16],
    out: &mut [u16],
) -> Result<Instantiables, Refusal>
    ensures { PromiseList (told_reading reading) sheet.now query.now workspace.old out.old result workspace.new out.new }
{
    let handed = list_handed(reading, sheet, query, workspace, out);
    settle(sheet, workspace);
    handed
}

fn list_handed(
    reading: Reading,
    sheet: &[u8],
    query: &[u8],
    workspace: &mut [u16],
    out: &mut [u16],
) -> Result<Instantiables, Refusal>
    ensures { PromiseList (told_reading reading) sheet.now query.now workspace.old out.old result (left sheet.now workspace.new) out.new }
{
    let (path, streams) = gathered(reading, sheet, read_path(query), workspace)?;
    let answer = list_at(reading, sheet, query, path, streams, workspace);
    let Ok(list) = answer else {
        return answer;
    };
    hand_out(Ok(list), &workspace[RECORDS..], out)
}

// Number to row, into a lent buffer.
pub fn row_at(
    sheet: &[u8],
    query: &[u8],
    number: usize,
    workspace: &mut [u16],
    out: &mut [u16],
) -> Result<Instantiables, Refusal>
    ensures { PromiseRow rust sheet.now query.now number workspace.old out.old result workspace.new out.new }
{
    row_at_in(Reading::Rust, sheet, query, number, workspace, out)
}

// The same in a reading that the caller chooses.
pub fn row_at_in(
    reading: Reading,
    sheet: &[u8],
    query: &[u8],
    number: usize,
    workspace: &mut [u16],
    out: &mut [u16],
) -> Result<Instantiables, Refusal>
    ensures { PromiseRow (told_reading reading) sheet.now query.now number workspace.old out.old result workspace.new out.new }
{
    let handed = row_handed(reading, sheet, query, number, workspace, out);
    settle(sheet, workspace);
    handed
}

fn row_handed(
    reading: Reading,
    sheet: &[u8],
    query: &[u8],
    number: usize,
    workspace: &mut [u16],
    out: &mut [u16],
) -> Result<Instantiables, Refusal>
    ensures { PromiseRow (told_reading reading) sheet.now query.now number workspace.old out.old result (left sheet.now workspace.new) out.new }
{
    let (path, streams) = gathered(reading, sheet, read_path(query), workspace)?;
    let answer = list_at(reading, sheet, query, path, streams, workspace);
    let Ok(list) = answer else {
        return answer;
    };
    let part = set_at(&workspace[RECORDS..], list.count, number)?;
    hand_out_part(part, out)
}

// Row to number.
pub fn number_of(
    sheet: &[u8],
    query: &[u8],
    row: &[u16],
    workspace: &mut [u16],
) -> Result<usize, Refusal>
    ensures { PromiseNumber rust sheet.now query.now row.now workspace.old result workspace.new }
{
    number_of_in(Reading::Rust, sheet, query, row, workspace)
}

// The same in a reading that the caller chooses.
pub fn number_of_in(
    reading: Reading,
    sheet: &[u8],
    query: &[u8],
    row: &[u16],
    workspace: &mut [u16],
) -> Result<usize, Refusal>
    ensures { PromiseNumber (told_reading reading) sheet.now query.now row.now workspace.old result workspace.new }
{
    let number = numbered(reading, sheet, query, row, workspace);
    settle(sheet, workspace);
    number
}

fn numbered(
    reading: Reading,
    sheet: &[u8],
    query: &[u8],
    row: &[u16],
    workspace: &mut [u16],
) -> Result<usize, Refusal>
    ensures { PromiseNumber (told_reading reading) sheet.now query.now row.now workspace.old result (left sheet.now workspace.new) }
{
    let asked = read_path_and_row(query, row);
    let ((path, part), streams) = gathered(reading, sheet, asked, workspace)?;
    let list = list_at(reading, sheet, query, path, streams, workspace)?;
    number_in(&workspace[RECORDS..], list.count, part)
}

// What `number_of` is asked: the query's refusal comes before the row's.
fn read_path_and_row(query: &[u8], row: &[u16]) -> Result<(Path, PartialComplexEntity), Refusal>
    ensures says { told_by (told_both query.now) result ≡ path_and_part query.now row.now }
    ensures within { IfOk result (λ asked. Spans query.now asked.0.scope.one × Spans query.now asked.0.item) }
{
    match (read_path(query), read_row(row)) {
        (Err(first), Err(_then)) => Err(first),
        (Err(first), Ok(_)) => Err(first),
        (Ok(_), Err(then)) => Err(then),
        (Ok(path), Ok(part)) => Ok((path, part)),
    }
}

// The row that is asked for; 15 at the first that is wrong.
fn read_row(row: &[u16]) -> Result<PartialComplexEntity, Refusal>
    ensures { told_by names_of result ≡ mapped part (read_part row.now) }
{
    match Part::read(row) {
        Ok(()) => Ok(PartialComplexEntity::read(row, 0)),
        Err(wrong) => Err(Refusal::at(Reason::Malformed, wrong)),
    }
}

// The k-th supertype in order of first entry, by its declaration's number.
pub fn supertype_at(sheet: &[u8], number: usize, workspace: &mut [u16]) -> Result<u16, Refusal>
    ensures { PromiseKth rust sheet.now number workspace.old result workspace.new }
{
    supertype_at_in(Reading::Rust, sheet, number, workspace)
}

// The same in a reading that the caller chooses.
pub fn supertype_at_in(
    reading: Reading,
    sheet: &[u8],
    number: usize,
    workspace: &mut [u16],
) -> Result<u16, Refusal>
    ensures { PromiseKth (told_reading reading) sheet.now number workspace.old result workspace.new }
{
    let found = counted(reading, sheet, number, workspace);
    settle(sheet, workspace);
    found
}

fn counted(
    reading: Reading,
    sheet: &[u8],
    number: usize,
    workspace: &mut [u16],
) -> Result<u16, Refusal>
    ensures { PromiseKth (told_reading reading) sheet.now number workspace.old result (left sheet.now workspace.new) }
{
    let (number, streams) = gathered(reading, sheet, Ok(number), workspace)?;
    count_to(streams, number, workspace)
}
