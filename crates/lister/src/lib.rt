// The lines of a sheet's listing, one after the other: the sheet is checked and gathered once, and each line is made when it is asked for.
#![tactic(auto)]

ghost use Rattle.std.specs.Prelude.{List, ℕ, ◌≤◌, length};
ghost use Rattle.sheet.specs.Told.{told_reading};
ghost use Rattle.listing.specs.MirrorLines.{most_line};
ghost use Rattle.lister.specs.MirrorRest.{Ready, AtCursor, Starts, GivesFirst, Falls};
ghost use Rattle.lister.specs.declared.Cursor.TheVariants as on;

use complex_entity::PartialComplexEntity;
use gathering::Streams;
use listing::{part_line, supertype_line_of, type_from, type_line_of};
use merging::{Entry, next_owner};
use noting::note_names;
use refusal::Refusal;
use sheet::Reading;
use supertypes::{RECORDS, gathered, list_of};
use text::refused_line;

// The records of gathering, from the place of one on.
#[derive(Clone, Copy)]
pub struct Records {
    pub streams: Streams,
    pub at: usize,
}

// A supertype's parts, from a number on; then the records behind its own.
#[derive(Clone, Copy)]
pub struct Parts {
    pub number: usize,
    pub count: usize,
    pub then: Records,
}

// What comes next.
#[derive(Clone, Copy)]
pub enum Cursor {
    Refusal(Refusal),
    Supertypes(Records),
    Parts(Parts),
    Types(usize),
    End,
}

// Where a line ends, and what comes after it.
#[derive(Clone, Copy)]
pub struct Line {
    pub stop: usize,
    pub next: Cursor,
}

// Room for any line.
pub const LINE: usize = 800;

// Checks and gathers, and notes where the names stand.
pub fn start(reading: Reading, sheet: &[u8], names: &mut [u16], workspace: &mut [u16]) -> Cursor
    requires { 32768 ≤ length workspace.old }
    ensures { Starts (told_reading reading) sheet.now names.new workspace.new result }
{
    match gathered(reading, sheet, Ok(()), workspace) {
        Ok(((), streams)) => {
            note_names(sheet, names);
            Cursor::Supertypes(Records { streams, at: 0 })
        }
        Err(why) => Cursor::Refusal(why),
    }
}

// The next line, made at the front of `out`, if one is left.
// The reading, the sheet and the names stay apart: a struct of them is no plainer, since every call below takes it apart again, and some take one or two of them.
pub fn next_line(
    reading: Reading,
    sheet: &[u8],
    names: &[u16],
    workspace: &mut [u16],
    cursor: Cursor,
    out: &mut [u8],
) -> Option<Line>
    requires at_cursor { AtCursor (told_reading reading) sheet.now names.now workspace.old cursor }
    requires most_line_in_bounds { most_line ≤ length out.old }
    ensures gives { GivesFirst (told_reading reading) sheet.now names.now workspace.old cursor workspace.new out.old out.new result }
    ensures falls { Falls cursor result }
{
    match cursor {
        Cursor::Refusal(why) => Some(Line {
            stop: refused_line(out, u8::from(why.reason), why.place),
            next: Cursor::End,
        }),
        Cursor::Supertypes(records) => {
            next_supertype(reading, sheet, names, workspace, records, out)
        }
        Cursor::Parts(parts) => next_part(reading, sheet, names, workspace, parts, out),
        Cursor::Types(number) => next_type(reading, sheet, names, number, out),
        Cursor::End => None,
    }
}

// The line of the next supertype; where there is none, of the first type.
fn next_supertype(
    reading: Reading,
    sheet: &[u8],
    names: &[u16],
    workspace: &mut [u16],
    records: Records,
    out: &mut [u8],
) -> Option<Line>
    requires at_cursor { AtCursor (told_reading reading) sheet.now names.now workspace.old (on.Supertypes records) }
    requires most_line_in_bounds { most_line ≤ length out.old }
    ensures gives { GivesFirst (told_reading reading) sheet.now names.now workspace.old (on.Supertypes records) workspace.new out.old out.new result }
    ensures falls { Falls (on.Supertypes records) result }
{
    let Records { streams, at } = records;
    let Some(Entry { owner, next }) = next_owner(&workspace[..streams.used], at) else {
        return next_type(reading, sheet, names, 0, out);
    };
    let then = Records { streams, at: next };
    match list_of(workspace, streams, owner) {
        Ok(list) => Some(Line {
            stop: supertype_line_of(sheet, names, owner as usize, Ok(list.count), out),
            next: Cursor::Parts(Parts {
                number: 0,
                count: list.count,
                then,
            }),
        }),
        Err(why) => Some(Line {
            stop: supertype_line_of(sheet, names, owner as usize, Err(why), out),
            next: Cursor::Supertypes(then),
        }),
    }
}

// The line of the next part; where there is none, of the next supertype.
fn next_part(
    reading: Reading,
    sheet: &[u8],
    names: &[u16],
    workspace: &mut [u16],
    parts: Parts,
    out: &mut [u8],
) -> Option<Line>
    requires at_cursor { AtCursor (told_reading reading) sheet.now names.now workspace.old (on.Parts parts) }
    requires most_line_in_bounds { most_line ≤ length out.old }
    ensures gives { GivesFirst (told_reading reading) sheet.now names.now workspace.old (on.Parts parts) workspace.new out.old out.new result }
    ensures falls { Falls (on.Parts parts) result }
{
    let Parts {
        number,
        count,
        then,
    } = parts;
    if count <= number {
        return next_supertype(reading, sheet, names, workspace, then, out);
    }
    let at = RECORDS + PartialComplexEntity::ROW * number;
    let stop = part_line(sheet, names, number, &workspace[at..], out);
    let next = Cursor::Parts(Parts {
        number: number + 1,
        count,
        then,
    });
    Some(Line { stop, next })
}

// The line of the first type from the number on.
fn next_type(
    reading: Reading,
    sheet: &[u8],
    names: &[u16],
    number: usize,
    out: &mut [u8],
) -> Option<Line>
    requires ready { Ready sheet.now names.now }
    requires most_line_in_bounds { most_line ≤ length out.old }
    ensures gives { (work : List ℕ) → GivesFirst (told_reading reading) sheet.now names.now work (on.Types number) work out.old out.new result }
    ensures falls { Falls (on.Types number) result }
{
    let Ok(found) = type_from(sheet, number) else {
        return None;
    };
    Some(Line {
        stop: type_line_of(reading, sheet, names, found, out),
        next: Cursor::Types(found + 1),
    })
}
