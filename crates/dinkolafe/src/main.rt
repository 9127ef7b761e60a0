// Reads a sheet from standard input and prints its listing.
#![tactic(auto)]

ghost use Rattle.std.specs.Prelude.{◌≡◌, ◌+◌, ◌≤◌, length, IfOk};
ghost use Rattle.sheet.specs.Told.{told_reading};
ghost use Rattle.listing.specs.MirrorLines.{most_line};
ghost use Rattle.lister.specs.MirrorRest.{AtCursor};

use lister::{Cursor, LINE, next_line, start};
use sheet::Reading;
use std::io;
use std::io::Read;
use supertypes::WORK;

// One byte more than a sheet may have: a full buffer is refused as too long.
const BYTES: usize = 65536;

// Lines are written out many at a time.
const OUT: usize = 16384;

// Where the names of 256 declarations stand, four numbers each.
const NAMES: usize = 1024;

// Reads to the end of the input, or until the buffer is full; answers how many bytes there are. Where reading fails the buffer counts as full, so that the sheet is refused. No read_to_end, which needs memory that grows.
fn read_sheet<R: Read>(input: &mut R, sheet: &mut [u8]) -> usize
    ensures { result ≤ length sheet.new }
{
    let mut held = 0;
    while held < sheet.len() {
        match input.read(&mut sheet[held..]) {
            Ok(0) => return held,
            Ok(count) => held += count,
            Err(_) => return sheet.len(),
        }
    }
    held
}

// Writes the lines out unless there is room for one more behind them; answers where the next one begins. Only a write can fail.
fn written(output: &impl Print, out: &[u8], end: usize) -> io::Result<usize>
    requires { (end ≤ length out.now) × (most_line ≤ length out.now) }
    ensures room { IfOk result (λ at. at + most_line ≤ length out.now) }
    ensures unwritten { end + most_line ≤ length out.now → result ≡ Ok end }
{
    if LINE <= out.len() - end {
        return Ok(end);
    }
    output.write_all(&out[..end])?;
    Ok(0)
}

// The lines, one after the other, until none is left.
fn print_lines(
    output: &impl Print,
    reading: Reading,
    sheet: &[u8],
    names: &[u16],
    workspace: &mut [u16],
    first: Cursor,
    out: &mut [u8],
) -> io::Result<()>
    requires at_cursor { AtCursor (told_reading reading) sheet.now names.now workspace.old first }
    requires most_line_in_bounds { most_line ≤ length out.old }
{
    let mut cursor = first;
    let mut at = 0;
    while let Some(line) = next_line(reading, sheet, names, workspace, cursor, &mut out[at..]) {
        cursor = line.next;
        at = written(output, out, at + line.stop)?;
    }
    output.write_all(&out[..at])
}

// The listing of the sheet, in memory that stands here.
fn print_listing(output: &impl Print, reading: Reading, sheet: &[u8]) -> io::Result<()> {
    let mut names = [0u16; NAMES];
    let mut workspace = [0u16; WORK];
    let mut out = [0u8; OUT];
    let first = start(reading, sheet, &mut names, &mut workspace);
    print_lines(
        output,
        reading,
        sheet,
        &names,
        &mut workspace,
        first,
        &mut out,
    )
}

fn main(rt: HostRuntime) -> io::Result<()> {
    let mut sheet = [0u8; BYTES];
    let held = read_sheet(&mut rt.stdin(), &mut sheet);
    print_listing(&rt, Reading::Rust, &sheet[..held])
}
