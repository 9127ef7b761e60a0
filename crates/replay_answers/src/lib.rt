// Answers in words that several questions share: no question, a refusal, a number, an order, a list and what it changed in the lent buffer.
#![tactic(auto)]

ghost use Rattle.lines.specs.Places.{Written};

use instantiables::Instantiables;
use refusal::Refusal;
use std::cmp::Ordering;

// The longest buffer that is lent.
pub const BUFFER: usize = 1664;

// A line that is no question.
pub fn unknown(out: &mut [u8]) -> usize
    ensures { Written 0 result out.old out.new }
{
    lines::text(out, 0, b"unknown")
}

pub fn refused(out: &mut [u8], why: Refusal) -> usize
    ensures { Written 0 result out.old out.new }
{
    let start = lines::text(out, 0, b"refused ");
    let middle = lines::decimal(out, start, usize::from(u8::from(why.reason)));
    let blank = lines::put(out, middle, b' ');
    lines::decimal(out, blank, why.place)
}

pub fn number(out: &mut [u8], value: usize) -> usize
    ensures { Written 0 result out.old out.new }
{
    let start = lines::text(out, 0, b"ok ");
    lines::decimal(out, start, value)
}

pub fn ordered(out: &mut [u8], order: Ordering) -> usize
    ensures { Written 0 result out.old out.new }
{
    match order {
        Ordering::Less => lines::text(out, 0, b"ok -1"),
        Ordering::Equal => lines::text(out, 0, b"ok 0"),
        Ordering::Greater => lines::text(out, 0, b"ok 1"),
    }
}

pub fn listed(out: &mut [u8], list: Result<Instantiables, Refusal>, buffer: &[u16; BUFFER]) -> usize
    ensures { Written 0 result out.old out.new }
{
    let end = counted(out, list);
    lines::changes(out, end, buffer)
}

fn counted(out: &mut [u8], list: Result<Instantiables, Refusal>) -> usize
    ensures { Written 0 result out.old out.new }
{
    match list {
        Ok(list) => number(out, list.count),
        Err(why) => refused(out, why),
    }
}
