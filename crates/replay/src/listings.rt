// The question `listing`. Its answer is written line by line: it may be longer than any buffer here.
ghost use Rattle.sheet.specs.Told.{told_reading};
ghost use Rattle.std.specs.Prelude.{◌≡◌, IfOk, IsOk, IsTrue};
ghost use Rattle.grammar.specs.MeaningReading.Reading.{rust};
ghost use Rattle.listing.specs.MeaningWhole.{Lists};
ghost use Rattle.lister.specs.MirrorRest.{Lines, AtCursor};
ghost use Rattle.replay.specs.Listed.{has_line, Told};

use lister::{Cursor, LINE, next_line, start};
use sheet::Reading;
use std::io;
use supertypes::WORK;

// Two digits a byte.
const DIGITS: usize = 2 * LINE;

const NAMES: usize = 1024;

// The word of the sheet's listing; answers whether it has a line.
pub fn put_listing(output: &impl Print, sheet: &[u8]) -> io::Result<bool>
    ensures { IfOk result (λ some. (ls : Lines) → Lists rust sheet.now ls → some ≡ has_line ls) }
{
    let mut names = [0u16; NAMES];
    let mut workspace = [0u16; WORK];
    let first = start(Reading::Rust, sheet, &mut names, &mut workspace);
    put_lines(output, Reading::Rust, sheet, &names, &mut workspace, first)
}

// The lines in hex digits; an empty word where there is none.
fn put_lines(
    output: &impl Print,
    reading: Reading,
    sheet: &[u8],
    names: &[u16],
    workspace: &mut [u16],
    first: Cursor,
) -> io::Result<bool>
    requires { AtCursor (told_reading reading) sheet.now names.now workspace.old first }
    ensures { IfOk result (Told (told_reading reading) sheet.now names.now workspace.old first) }
{
    let mut text = [0u8; LINE];
    let mut cursor = first;
    let mut some = false;
    while let Some(line) = next_line(reading, sheet, names, workspace, cursor, &mut text) {
        put_digits(output, &text[..line.stop])?;
        cursor = line.next;
        some = true;
    }
    put_end(output, some)?;
    Ok(some)
}

fn put_digits(output: &impl Print, bytes: &[u8]) -> io::Result<()> {
    let mut digits = [0u8; DIGITS];
    let end = lines::hex(&mut digits, 0, bytes);
    output.write_all(lines::front(&digits, end))
}

// Where lines were written nothing is left to write.
fn put_end(output: &impl Print, some: bool) -> io::Result<()>
    ensures { IsTrue some → IsOk result }
{
    if !some {
        put_digits(output, b"")?;
    }
    Ok(())
}
