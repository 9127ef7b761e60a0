// The questions on a sheet, alone or with a query or an index, and on two queries.
#![tactic(auto)]

ghost use Rattle.std.specs.Prelude.{◌≡◌, MatchOption};
ghost use Rattle.lines.specs.Places.{Written};

use namespace::{as_path, get, item_name, resolve, schema_name};
use query::order;
use refusal::Refusal;
use replay_answers::{number, ordered, refused, unknown};
use sheet::verdict;
use std::cmp::Ordering;

// A good query has at most 140 bytes, the longest that is asked 307.
pub const QUERY: usize = 4096;

// Writes the answer to a line that asks of a sheet; answers its length.
pub fn answer(line: &[u8], out: &mut [u8], sheet: &[u8]) -> usize
    ensures { Written 0 result out.old out.new }
{
    match asked(line, out, sheet) {
        Some(end) => end,
        None => unknown(out),
    }
}

// The answer, where the line is a question.
fn asked(line: &[u8], out: &mut [u8], sheet: &[u8]) -> Option<usize>
    ensures { MatchOption result (out.new ≡ out.old) (λ end. Written 0 end out.old out.new) }
{
    match lines::word(line, 0) {
        b"verdict" => Some(judged(out, verdict(sheet))),
        b"resolve" => of_query(line, out, sheet, resolve),
        b"get" => of_query(line, out, sheet, get),
        _ => of_index(line, out, sheet),
    }
}

fn of_query<A: Fn(&[u8], &[u8]) -> Result<u16, Refusal>>(
    line: &[u8],
    out: &mut [u8],
    sheet: &[u8],
    ask: A,
) -> Option<usize>
    requires { A.IsAlwaysCallable ask }
    ensures { MatchOption result (out.new ≡ out.old) (λ end. Written 0 end out.old out.new) }
{
    let mut query = [0u8; QUERY];
    let count = lines::bytes(lines::word(line, 2), &mut query)?;
    Some(numbered(out, ask(sheet, &query[..count])))
}

fn of_index(line: &[u8], out: &mut [u8], sheet: &[u8]) -> Option<usize>
    ensures { MatchOption result (out.new ≡ out.old) (λ end. Written 0 end out.old out.new) }
{
    let index = lines::decimal_to(lines::word(line, 2), 65535)? as u16;
    Some(match lines::word(line, 0) {
        b"schema_name" => part(out, schema_name(sheet, index)),
        b"item_name" => part(out, item_name(sheet, index)),
        _ => judged(out, as_path(sheet, index)),
    })
}

// How two scopes stand to each other.
pub fn scope_order(line: &[u8], out: &mut [u8]) -> usize
    ensures { Written 0 result out.old out.new }
{
    match of_queries(line, out) {
        Some(end) => end,
        None => unknown(out),
    }
}

fn of_queries(line: &[u8], out: &mut [u8]) -> Option<usize>
    ensures { MatchOption result (out.new ≡ out.old) (λ end. Written 0 end out.old out.new) }
{
    let mut first = [0u8; QUERY];
    let mut second = [0u8; QUERY];
    let left = lines::bytes(lines::word(line, 1), &mut first)?;
    let right = lines::bytes(lines::word(line, 2), &mut second)?;
    Some(placed(out, order(&first[..left], &second[..right])))
}

// A number, or a flag as 0 or 1.
pub fn numbered<T: Into<usize> + Copy>(out: &mut [u8], told: Result<T, Refusal>) -> usize
    ensures { Written 0 result out.old out.new }
{
    match told {
        Ok(value) => number(out, value.into()),
        Err(why) => refused(out, why),
    }
}

// A part of a sheet.
fn part(out: &mut [u8], bytes: &[u8]) -> usize
    ensures { Written 0 result out.old out.new }
{
    let start = lines::text(out, 0, b"ok ");
    lines::hex(out, start, bytes)
}

fn judged(out: &mut [u8], told: Result<(), Refusal>) -> usize
    ensures { Written 0 result out.old out.new }
{
    match told {
        Ok(()) => lines::text(out, 0, b"ok"),
        Err(why) => refused(out, why),
    }
}

// Scopes may be unordered.
fn placed(out: &mut [u8], told: Result<Option<Ordering>, Refusal>) -> usize
    ensures { Written 0 result out.old out.new }
{
    match told {
        Ok(Some(order)) => ordered(out, order),
        Ok(None) => lines::text(out, 0, b"ok none"),
        Err(why) => refused(out, why),
    }
}
