// The questions on parts, lists and expressions: each shape of words is decoded, asked as it stands, malformed or not, and answered.
#![tactic(auto)]

ghost use Rattle.std.specs.Prelude.{◌≡◌, MatchOption};
ghost use Rattle.expression.specs.MirrorNodes.{Node};
ghost use Rattle.lines.specs.Places.{Written};
ghost use Rattle.replay_rows.specs.Asked.{Answering};

mod valuing;

use evaluation::DEPTH;
use instantiables::Instantiables;
use nodes::read_node;
use refusal::Refusal;
use replay_answers::{BUFFER, listed, ordered, refused, unknown};
use std::cmp::Ordering;
use valuing::value;

// The longest word of numbers that is asked has 130 rows.
const WORD: usize = 1690;

// An expression that is asked has at most 513 nodes, of at most five bytes and of three numbers each.
const FIELDS: usize = 2565;

const NODES: usize = 1539;

// Writes the answer to a line; answers its length.
pub fn answer(line: &[u8], out: &mut [u8]) -> usize
    ensures { Written 0 result out.old out.new }
{
    match asked(line, out) {
        Some(end) => end,
        None => unknown(out),
    }
}

// The answer, where the line is a question. The name says what its two words are to be: parts, lists, or counts and rows.
fn asked(line: &[u8], out: &mut [u8]) -> Option<usize>
    ensures { MatchOption result (out.new ≡ out.old) (λ end. Written 0 end out.old out.new) }
{
    match lines::word(line, 0) {
        b"eval" => eval(line, out),
        b"new" => new(line, out),
        b"single" => single(line, out),
        b"compare" => compare(line, out),
        b"join" => of_two(line, out, algebra::join),
        b"add" => of_two(line, out, algebra::add),
        b"bitand" => of_two(line, out, algebra::bitand),
        b"sub" => of_two(line, out, algebra::sub),
        b"div" => of_two(line, out, algebra::div),
        b"part_add" => of_two(line, out, algebra::part_add),
        b"part_bitand" => of_two(line, out, algebra::part_bitand),
        b"add_part" => of_two(line, out, algebra::add_part),
        b"bitand_part" => of_two(line, out, algebra::bitand_part),
        b"sub_part" => of_two(line, out, algebra::sub_part),
        b"div_part" => of_two(line, out, algebra::div_part),
        b"oneof" => of_two(line, out, algebra::oneof),
        b"and" => of_two(line, out, algebra::and),
        b"andor" => of_two(line, out, algebra::andor),
        _ => None,
    }
}

fn eval(line: &[u8], out: &mut [u8]) -> Option<usize>
    ensures { MatchOption result (out.new ≡ out.old) (λ end. Written 0 end out.old out.new) }
{
    let mut bytes = [0u8; FIELDS];
    let mut numbers = [0u16; NODES];
    let count = lines::bytes(lines::word(line, 1), &mut bytes)?;
    let used = read_node(&bytes[..count], &mut numbers, 0, DEPTH)?;
    of_nodes(line, out, &numbers[..used])
}

// An expression as it was read.
fn of_nodes(line: &[u8], out: &mut [u8], nodes: &[u16]) -> Option<usize>
    requires { Node nodes.now 12 }
    ensures { MatchOption result (out.new ≡ out.old) (λ end. Written 0 end out.old out.new) }
{
    let mut buffer = [0u16; BUFFER];
    let size = lines::lend(lines::word(line, 2), &mut buffer)?;
    let told = value(nodes, &mut buffer[..size]);
    Some(listed(out, told, &buffer))
}

fn new(line: &[u8], out: &mut [u8]) -> Option<usize>
    ensures { MatchOption result (out.new ≡ out.old) (λ end. Written 0 end out.old out.new) }
{
    let mut indices = [0u16; WORD];
    let mut buffer = [0u16; BUFFER];
    let count = lines::numbers(lines::word(line, 1), &mut indices)?;
    let size = lines::lend(lines::word(line, 2), &mut buffer)?;
    let told = algebra::new(&indices[..count], &mut buffer[..size]);
    Some(listed(out, told, &buffer))
}

fn single(line: &[u8], out: &mut [u8]) -> Option<usize>
    ensures { MatchOption result (out.new ≡ out.old) (λ end. Written 0 end out.old out.new) }
{
    let mut buffer = [0u16; BUFFER];
    let index = lines::decimal_to(lines::word(line, 1), 65535)?;
    let size = lines::lend(lines::word(line, 2), &mut buffer)?;
    let told = algebra::single(index as u16, &mut buffer[..size]);
    Some(listed(out, told, &buffer))
}

// Only the comparison of two parts has no buffer.
fn compare(line: &[u8], out: &mut [u8]) -> Option<usize>
    ensures { MatchOption result (out.new ≡ out.old) (λ end. Written 0 end out.old out.new) }
{
    let mut first = [0u16; WORD];
    let mut second = [0u16; WORD];
    let left = lines::numbers(lines::word(line, 1), &mut first)?;
    let right = lines::numbers(lines::word(line, 2), &mut second)?;
    let told = algebra::compare(&first[..left], &second[..right]);
    Some(compared(out, told))
}

// A question on two words of numbers, with a buffer.
fn of_two<A: Fn(&[u16], &[u16], &mut [u16]) -> Result<Instantiables, Refusal>>(
    line: &[u8],
    out: &mut [u8],
    ask: A,
) -> Option<usize>
    requires callable { A.IsAlwaysCallable ask }
    requires some_answer { Answering (A.post ask) }
    ensures { MatchOption result (out.new ≡ out.old) (λ end. Written 0 end out.old out.new) }
{
    let mut first = [0u16; WORD];
    let mut second = [0u16; WORD];
    let mut buffer = [0u16; BUFFER];
    let left = lines::numbers(lines::word(line, 1), &mut first)?;
    let right = lines::numbers(lines::word(line, 2), &mut second)?;
    let size = lines::lend(lines::word(line, 3), &mut buffer)?;
    let told = ask(&first[..left], &second[..right], &mut buffer[..size]);
    Some(listed(out, told, &buffer))
}

fn compared(out: &mut [u8], told: Result<Ordering, Refusal>) -> usize
    ensures { Written 0 result out.old out.new }
{
    match told {
        Ok(order) => ordered(out, order),
        Err(why) => refused(out, why),
    }
}
