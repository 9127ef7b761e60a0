// Answers the questions on parts, lists, expressions, sheets, names, supertypes, types and listings, a line each, from standard input to standard output.
#![tactic(auto)]

ghost use Rattle.std.specs.Prelude.{◌≤◌, length, IfOk};

mod listings;
mod questions;

use std::io;
use std::io::Read;

// A line is at most so long.
const LONGEST: usize = 300000;
// An answer is at most so long.
const ANSWER: usize = 8192;

// A question `listing`: its answer may be longer than any buffer here, so it is written as it is made.
fn answer_listing(output: &impl Print, line: &[u8]) -> io::Result<()> {
    let mut bytes = [0u8; questions::SHEET];
    let Some(count) = lines::bytes(lines::word(line, 1), &mut bytes) else {
        return output.write_all(b"unknown\n");
    };
    output.write_all(b"ok ")?;
    listings::put_listing(output, &bytes[..count])?;
    output.write_all(b"\n")
}

// One question's line.
fn answer_line(output: &impl Print, line: &[u8]) -> io::Result<()> {
    if lines::is(lines::word(line, 0), b"listing") {
        return answer_listing(output, line);
    }
    let mut out = [0u8; ANSWER];
    let end = questions::answer(line, &mut out);
    let after = lines::put(&mut out, end, b'\n');
    output.write_all(lines::front(&out, after))
}

// Answers each whole line of a text, and answers where the line begins that is not whole.
fn answer_lines(output: &impl Print, text: &[u8]) -> io::Result<usize>
    ensures { IfOk result (λ from. from ≤ length text.now) }
{
    let mut from = 0;
    while let Some(count) = text[from..].iter().position(|byte| *byte == b'\n') {
        let end = from + count;
        answer_line(output, &text[from..end])?;
        from = end + 1;
    }
    Ok(from)
}

// Reads once, answers what is whole and keeps the rest; answers how much that is. Where reading fails no more comes.
fn turn<R: Read>(
    input: &mut R,
    output: &impl Print,
    text: &mut [u8],
    held: usize,
) -> io::Result<usize>
    requires { held ≤ length text.old }
    ensures { IfOk result (λ kept. kept ≤ length text.new) }
{
    let count = input.read(&mut text[held..]).unwrap_or(0);
    if count == 0 {
        // the input is over: a last line may lack its end
        answer_last(output, &text[..held])?;
        return Ok(text.len());
    }
    let end = held + count;
    let from = answer_lines(output, &text[..end])?;
    Ok(lines::to_front(text, from, end))
}

fn answer_last(output: &impl Print, line: &[u8]) -> io::Result<()> {
    if 0 < line.len() {
        answer_line(output, line)?;
    }
    Ok(())
}

// A proved loop has to end, and nothing says that the input does: the turns are bounded.
fn main(rt: HostRuntime) -> io::Result<()> {
    let mut input = rt.stdin();
    let mut text = [0u8; LONGEST];
    let mut held = 0;
    for _ in 0..u64::MAX {
        if LONGEST <= held {
            break;
        }
        held = turn(&mut input, &rt, &mut text, held)?;
    }
    Ok(())
}
