// The lines of a listing that speak of declarations, by their numbers, as bytes in lent memory. Every function answers the place after what it put.
#![tactic(auto)]

ghost use Rattle.std.specs.Prelude.{◌≡◌, Bool, true, ◌+◌, ◌≤◌, length};
ghost use Rattle.std.proofs.Math.Option.{some};
ghost use Rattle.std.proofs.Math.ListN.{get_elem?};
ghost use Rattle.refusal.specs.MeaningAnswer.{Answer};
ghost use Rattle.refusal.specs.Told.{told};
ghost use Rattle.complex_entity.specs.MirrorParts.{part_at};
ghost use Rattle.sheet.specs.Told.{told_reading};
ghost use Rattle.schemas.specs.MeaningSchemas.{TypeDecl};
ghost use Rattle.scope.specs.MeaningScope as meaning;
ghost use Rattle.declarations.specs.MeaningNamespace.{schemas_in, Declaration, declarations, schema_name, item_name};
ghost use Rattle.declarations.specs.MeaningNamespace.Named.{a_type};
ghost use Rattle.declarations.specs.MirrorNamespace.{path_to};
ghost use Rattle.text.specs.MeaningText.{type_line};
ghost use Rattle.text.specs.MirrorText.{Puts, next_text, Counted};
ghost use Rattle.text.specs.Told.{told_flags};
ghost use Rattle.noting.specs.MirrorNoted.{Noted};
ghost use Rattle.listing.specs.MeaningLines.{number_text, line_of_part};
ghost use Rattle.listing.specs.MeaningListing.{flags_of};
ghost use Rattle.listing.specs.MeaningWhole.{AllWalked};
ghost use Rattle.listing.specs.MirrorLines.{most_line, Short, RowStands, line_of_supertype, type_from, IsType};

use complex_entity::PartialComplexEntity;
use declarations::first_of;
use named_types::{is_enumeration, walk};
use noting::{bytes_at, names_of};
use refusal::{Reason, Refusal};
use scope::ScopeType;
use sheet::Reading;
use standing::{Declared, declaration};
use text::{Flags, line_end, part_start, put_next, supertype_line, type_line};

// One path more: that of the declaration with the index.
pub fn number_path(
    sheet: &[u8],
    names: &[u16],
    index: usize,
    first: bool,
    out: &mut [u8],
    at: usize,
) -> usize
    requires { Short sheet.now × Noted sheet.now names.now × (at + 66 ≤ length out.old) }
    ensures { Puts (next_text first (number_text (schemas_in sheet.now) index)) at result out.old out.new }
{
    let here = names_of(sheet, names, index);
    put_next(
        out,
        at,
        first,
        bytes_at(sheet, here.schema),
        bytes_at(sheet, here.item),
    )
}

// The line of the part that stands as a row.
pub fn part_line(sheet: &[u8], names: &[u16], number: usize, row: &[u16], out: &mut [u8]) -> usize
    requires { Short sheet.now × Noted sheet.now names.now × (number ≤ 65535) × RowStands row.now × (most_line ≤ length out.old) }
    ensures { Puts (line_of_part (schemas_in sheet.now) number (part_at row.now)) 0 result out.old out.new }
{
    let part = PartialComplexEntity::names_at(row, 0);
    let mut at = part_start(out, number);
    for (i, &index) in part.iter().enumerate() {
        at = number_path(sheet, names, usize::from(index), i == 0, out, at);
    }
    line_end(out, at)
}

// The line of a supertype, which is the declaration with the index `owner`.
pub fn supertype_line_of(
    sheet: &[u8],
    names: &[u16],
    owner: usize,
    count: Result<usize, Refusal>,
    out: &mut [u8],
) -> usize
    requires { Short sheet.now × Noted sheet.now names.now × Counted count × (100 ≤ length out.old) }
    ensures { Puts (line_of_supertype (schemas_in sheet.now) owner (told count)) 0 result out.old out.new }
{
    let here = names_of(sheet, names, owner);
    supertype_line(
        out,
        bytes_at(sheet, here.schema),
        bytes_at(sheet, here.item),
        count,
    )
}

// ---- Types.

// The number of the first type from this one on, or the number after the last.
pub fn type_from(sheet: &[u8], number: usize) -> Result<usize, usize>
    ensures { result ≡ type_from (schemas_in sheet.now) number }
{
    let mut n = number;
    while let Ok(Declared { tag, .. }) = declaration(sheet, n) {
        if tag == 0x20 {
            return Ok(n);
        }
        n += 1;
    }
    Err(n)
}

// The flags at the path of a type of the name in a schema of the name: the first declaration with an equal path decides.
fn flags_of(reading: Reading, sheet: &[u8], schema: &[u8], item: &[u8]) -> Result<Flags, Refusal>
    requires { length sheet.now ≤ 65535 }
    ensures { (walked : meaning.Path → Answer Bool) → AllWalked (told_reading reading) sheet.now walked → (p : meaning.Path) → meaning.same_path (told_reading reading) p (path_to schema.now meaning.ScopeType.type item.now) ≡ true → told_flags result ≡ flags_of (told_reading reading) (schemas_in sheet.now) walked p }
{
    let first = first_of(reading, sheet, schema, ScopeType::Type, item).ok_or(
        Reason::NoDeclaration,
    )?;
    let number = usize::from(first);
    let simple = walk(reading, sheet, number)?;
    let enumeration = is_enumeration(sheet, number);
    Ok(Flags {
        simple,
        enumeration,
    })
}

// The line of the type with the number.
pub fn type_line_of(
    reading: Reading,
    sheet: &[u8],
    names: &[u16],
    number: usize,
    out: &mut [u8],
) -> usize
    requires fact { IsType (schemas_in sheet.now) number }
    requires short { Short sheet.now × (length sheet.now ≤ 65535) × Noted sheet.now names.now × (100 ≤ length out.old) }
    ensures { (walked : meaning.Path → Answer Bool) → AllWalked (told_reading reading) sheet.now walked → (d : Declaration) (t : TypeDecl) → get_elem? (declarations (schemas_in sheet.now)) number ≡ some d → d.named ≡ a_type t → Puts (type_line (schema_name d.path).bytes (item_name d.path).bytes (flags_of (told_reading reading) (schemas_in sheet.now) walked d.path)) 0 result out.old out.new }
{
    let here = names_of(sheet, names, number);
    let schema = bytes_at(sheet, here.schema);
    let item = bytes_at(sheet, here.item);
    let flags = flags_of(reading, sheet, schema, item);
    type_line(out, schema, item, flags)
}
