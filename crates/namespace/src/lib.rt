// after espr/src/ir/namespace.rs of ruststep cd89e5a7cd, Apache-2.0; changed
//
// The declarations of a sheet by number: `resolve`, `get`, `as_path`, and the order of refusals of every question on a sheet.
#![tactic(auto)]

ghost use Rattle.std.specs.Prelude.{true};
ghost use Rattle.refusal.specs.MeaningAnswer.{done};
ghost use Rattle.refusal.specs.Told.{told};
ghost use Rattle.grammar.specs.MeaningReading.Reading.{rust};
ghost use Rattle.sheet.specs.Told.{told_reading};
ghost use Rattle.declarations.specs.MeaningNamespace.{schema_name, item_name};
ghost use Rattle.namespace.specs.MeaningOrder.{Answers};
ghost use Rattle.namespace.specs.Promises.{PromiseResolve, PromiseGet, PromisePart, PromisePath};
ghost use Rattle.namespace.specs.MirrorNames.{name_within, NameStands};

use lookup::{Span, name_of};
use query::{AskedName, read_path, read_resolve};
use refusal::{Reason, Refusal};
use resolving::{number_for, resolved_for};
use sheet::{Reading, verdict_in};
use standing::declaration;

// Which name of a declaration's path.
#[derive(Clone, Copy, Debug, PartialEq, Eq)]
pub enum PathName {
    Schema,
    Item,
}

const MOST_BYTES: usize = 65535;

// ---- The order of refusals, once for every question: 1, 2, the sheet's faults, then what was asked.

pub fn cleared<T: Copy>(
    reading: Reading,
    sheet: &[u8],
    long: bool,
    asked: Result<T, Refusal>,
) -> Result<T, Refusal>
    ensures { Answers (told_reading reading) sheet.now long (told asked) done (told result) }
{
    if MOST_BYTES < sheet.len() {
        return Err(Reason::SheetTooLong.into());
    }
    if !long {
        return Err(Reason::WorkspaceTooShort.into());
    }
    verdict_in(reading, sheet)?;
    asked
}

// ---- `resolve` and `get`.

// The number of the declaration that a name means in a scope.
pub fn resolve(sheet: &[u8], query: &[u8]) -> Result<u16, Refusal>
    ensures { PromiseResolve rust sheet.now query.now result }
{
    resolve_in(Reading::Rust, sheet, query)
}

// The same in a reading that the caller chooses.
#[tactic(auto, using(crate::proofs::Asking::resolving))]
pub fn resolve_in(reading: Reading, sheet: &[u8], query: &[u8]) -> Result<u16, Refusal>
    ensures { PromiseResolve (told_reading reading) sheet.now query.now result }
{
    let AskedName { scope, start, stop } = cleared(reading, sheet, true, read_resolve(query))?;
    let undeclared = Refusal::at(Reason::Undeclared, start);
    resolved_for(reading, sheet, query, scope, &query[start..stop]).ok_or(undeclared)
}

// The number of the first declaration with an equal path.
pub fn get(sheet: &[u8], query: &[u8]) -> Result<u16, Refusal>
    ensures { PromiseGet rust sheet.now query.now result }
{
    get_in(Reading::Rust, sheet, query)
}

// The same in a reading that the caller chooses.
#[tactic(auto, using(crate::proofs::Asking::getting_paths))]
pub fn get_in(reading: Reading, sheet: &[u8], query: &[u8]) -> Result<u16, Refusal>
    ensures { PromiseGet (told_reading reading) sheet.now query.now result }
{
    let path = cleared(reading, sheet, true, read_path(query))?;
    number_for(reading, sheet, query, path).ok_or(Reason::NoDeclaration.into())
}

// ---- `as_path`.

// Where a name of the declaration's path stands.
#[tactic(auto, using(crate::proofs::Naming::placing))]
pub fn name_place(
    reading: Reading,
    sheet: &[u8],
    index: u16,
    which: PathName,
) -> Result<Span, Refusal>
    ensures { NameStands (told_reading reading) sheet.now index which result }
{
    cleared(reading, sheet, true, Ok(index))?;
    let Ok(found) = declaration(sheet, usize::from(index)) else {
        return Err(Reason::Malformed.into());
    };
    match which {
        PathName::Schema => Ok(name_of(sheet, found.schema.start, found.schema.stop)),
        PathName::Item => Ok(name_of(sheet, found.item.start, found.item.stop)),
    }
}

// A name of the declaration's path: the part of the sheet that holds it, empty where it is refused.
#[tactic(auto, using(crate::proofs::Naming::telling))]
fn part_in(reading: Reading, sheet: &[u8], index: u16, which: PathName) -> &[u8]
    ensures { PromisePart (name_within which) (told_reading reading) sheet.now index result.now }
{
    let Ok(Span { start, stop }) = name_place(reading, sheet, index, which) else {
        return &sheet[0..0];
    };
    &sheet[start..stop]
}

// The name of the declaration's schema.
pub fn schema_name(sheet: &[u8], index: u16) -> &[u8]
    ensures { PromisePart schema_name rust sheet.now index result.now }
{
    schema_name_in(Reading::Rust, sheet, index)
}

// The same in a reading that the caller chooses.
#[tactic(auto, using(crate::proofs::Naming::schema_part))]
pub fn schema_name_in(reading: Reading, sheet: &[u8], index: u16) -> &[u8]
    ensures { PromisePart schema_name (told_reading reading) sheet.now index result.now }
{
    part_in(reading, sheet, index, PathName::Schema)
}

// The declaration's own name.
pub fn item_name(sheet: &[u8], index: u16) -> &[u8]
    ensures { PromisePart item_name rust sheet.now index result.now }
{
    item_name_in(Reading::Rust, sheet, index)
}

// The same in a reading that the caller chooses.
#[tactic(auto, using(crate::proofs::Naming::item_part))]
pub fn item_name_in(reading: Reading, sheet: &[u8], index: u16) -> &[u8]
    ensures { PromisePart item_name (told_reading reading) sheet.now index result.now }
{
    part_in(reading, sheet, index, PathName::Item)
}

// Whether there is such a path, or why not.
pub fn as_path(sheet: &[u8], index: u16) -> Result<(), Refusal>
    ensures { PromisePath rust sheet.now index result }
{
    as_path_in(Reading::Rust, sheet, index)
}

// The same in a reading that the caller chooses.
#[tactic(auto, using(crate::proofs::Naming::telling))]
pub fn as_path_in(reading: Reading, sheet: &[u8], index: u16) -> Result<(), Refusal>
    ensures { PromisePath (told_reading reading) sheet.now index result }
{
    name_place(reading, sheet, index, PathName::Item)?;
    Ok(())
}
