// The questions that borrow a workspace: about supertypes, and `from_path`.
ghost use Rattle.grammar.specs.MeaningReading.Reading.{rust};
ghost use Rattle.instantiables.specs.Told.{told_listed};
ghost use Rattle.constraints.specs.Promises.{PromiseSupertype, PromiseList, PromiseNumber, PromiseRow, PromiseKth};
ghost use Rattle.type_ref.specs.Promises.{PromiseType};
ghost use Rattle.codes.specs.Told.{numbered, decided, typed};
ghost use Rattle.exports.specs.Promises.{Exported};

use codes::{hand_out, kind_of};

#[unsafe(no_mangle)]
pub extern "C" fn dinkolafe_is_supertype(
    sheet: &[u8],
    query: &[u8],
    workspace: &mut [u16],
    value: &mut u64,
) -> u8
    ensures { Exported decided (λ a. PromiseSupertype rust sheet.now query.now workspace.old a workspace.new) result value.new }
{
    hand_out(constraints::is_supertype(sheet, query, workspace), value)
}

#[unsafe(no_mangle)]
pub extern "C" fn dinkolafe_list(
    sheet: &[u8],
    query: &[u8],
    workspace: &mut [u16],
    out: &mut [u16],
    value: &mut u64,
) -> u8
    ensures { Exported told_listed (λ a. PromiseList rust sheet.now query.now workspace.old out.old a workspace.new out.new) result value.new }
{
    hand_out(constraints::list(sheet, query, workspace, out), value)
}

#[unsafe(no_mangle)]
pub extern "C" fn dinkolafe_number_of(
    sheet: &[u8],
    query: &[u8],
    row: &[u16],
    workspace: &mut [u16],
    value: &mut u64,
) -> u8
    ensures { Exported numbered (λ a. PromiseNumber rust sheet.now query.now row.now workspace.old a workspace.new) result value.new }
{
    hand_out(constraints::number_of(sheet, query, row, workspace), value)
}

#[unsafe(no_mangle)]
pub extern "C" fn dinkolafe_row_at(
    sheet: &[u8],
    query: &[u8],
    number: usize,
    workspace: &mut [u16],
    out: &mut [u16],
    value: &mut u64,
) -> u8
    ensures { Exported told_listed (λ a. PromiseRow rust sheet.now query.now number workspace.old out.old a workspace.new out.new) result value.new }
{
    hand_out(
        constraints::row_at(sheet, query, number, workspace, out),
        value,
    )
}

#[unsafe(no_mangle)]
pub extern "C" fn dinkolafe_supertype_at(
    sheet: &[u8],
    number: usize,
    workspace: &mut [u16],
    value: &mut u64,
) -> u8
    ensures { Exported numbered (λ a. PromiseKth rust sheet.now number workspace.old a workspace.new) result value.new }
{
    hand_out(constraints::supertype_at(sheet, number, workspace), value)
}

#[unsafe(no_mangle)]
pub extern "C" fn dinkolafe_from_path(
    sheet: &[u8],
    query: &[u8],
    workspace: &mut [u16],
    value: &mut u64,
) -> u8
    ensures { Exported (typed query.now) (λ a. PromiseType rust sheet.now query.now workspace.old a workspace.new) result value.new }
{
    hand_out(kind_of(type_ref::from_path(sheet, query, workspace)), value)
}
