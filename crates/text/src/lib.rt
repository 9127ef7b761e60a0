// The pieces and lines of a listing, as bytes in lent memory. Every function answers the place after what it put.
#![tactic(auto)]

ghost use Rattle.std.specs.Prelude.{◌≡◌, [], ◌∷◌, ◌++◌, ◌+◌, ◌≤◌, ◌<◌, length};
ghost use Rattle.refusal.specs.Told.{told};
ghost use Rattle.text.specs.MeaningText.{blank, line_feed, decimal, flag, flags, path_text, refused_line, or_refused, supertype_line, type_line};
ghost use Rattle.text.specs.MirrorText.{Puts, refused_text, start_text, next_text, Counted};
ghost use Rattle.text.specs.Told.{told_flags};

use refusal::Refusal;

// What is asked of a type.
#[derive(Clone, Copy, Debug, PartialEq, Eq)]
pub struct Flags {
    pub simple: bool,
    pub enumeration: bool,
}

pub fn put_byte(out: &mut [u8], at: usize, byte: u8) -> usize
    requires { at + 1 ≤ length out.old }
    ensures { Puts (byte ∷ []) at result out.old out.new }
{
    out[at] = byte;
    at + 1
}

pub fn put_bytes(out: &mut [u8], at: usize, bytes: &[u8]) -> usize
    requires { at + length bytes.now ≤ length out.old }
    ensures { Puts bytes.now at result out.old out.new }
{
    let end = at + bytes.len();
    out[at..end].copy_from_slice(bytes);
    end
}

// The character of a digit.
fn digit(value: usize) -> u8
    requires { value < 10 }
    ensures { result ≡ 0x30 + value }
{
    b'0' + value as u8
}

// A number in decimal: what comes before its last digit goes first.
pub fn put_decimal(out: &mut [u8], at: usize, number: usize) -> usize
    requires { at + length (decimal number) ≤ length out.old }
    ensures { Puts (decimal number) at result out.old out.new }
{
    if number < 10 {
        return put_byte(out, at, digit(number));
    }
    let end = put_decimal(out, at, number / 10);
    put_byte(out, end, digit(number % 10))
}

pub fn put_flag(out: &mut [u8], at: usize, holds: bool) -> usize
    requires { at + 1 ≤ length out.old }
    ensures { Puts (flag holds) at result out.old out.new }
{
    if holds {
        return put_byte(out, at, b'1');
    }
    put_byte(out, at, b'0')
}

pub fn put_path(out: &mut [u8], at: usize, schema: &[u8], item: &[u8]) -> usize
    requires { at + (length schema.now + 1 + length item.now) ≤ length out.old }
    ensures { Puts (path_text schema.now item.now) at result out.old out.new }
{
    let dot = put_bytes(out, at, schema);
    let name = put_byte(out, dot, b'.');
    put_bytes(out, name, item)
}

// The word and the number of a refusal, without its place.
fn put_refused(out: &mut [u8], at: usize, number: u8) -> usize
    requires { at + 13 ≤ length out.old }
    ensures { Puts (refused_text number) at result out.old out.new × (result ≤ at + 13) }
{
    let space = put_bytes(out, at, b"refused");
    let digits = put_byte(out, space, b' ');
    put_decimal(out, digits, usize::from(number))
}

fn put_count(out: &mut [u8], at: usize, count: Result<usize, Refusal>) -> usize
    requires { Counted count × (at + 13 ≤ length out.old) }
    ensures { Puts (or_refused decimal (told count)) at result out.old out.new × (result ≤ at + 13) }
{
    match count {
        Ok(number) => put_decimal(out, at, number),
        Err(why) => put_refused(out, at, u8::from(why.reason)),
    }
}

fn put_both(out: &mut [u8], at: usize, both: Flags) -> usize
    requires { at + 3 ≤ length out.old }
    ensures { Puts (flags (both.simple, both.enumeration)) at result out.old out.new }
{
    let space = put_flag(out, at, both.simple);
    let second = put_byte(out, space, b' ');
    put_flag(out, second, both.enumeration)
}

fn put_flags(out: &mut [u8], at: usize, asked: Result<Flags, Refusal>) -> usize
    requires { at + 13 ≤ length out.old }
    ensures { Puts (or_refused flags (told_flags asked)) at result out.old out.new × (result ≤ at + 13) }
{
    match asked {
        Ok(both) => put_both(out, at, both),
        Err(why) => put_refused(out, at, u8::from(why.reason)),
    }
}

pub fn line_end(out: &mut [u8], at: usize) -> usize
    requires { at + 1 ≤ length out.old }
    ensures { Puts line_feed at result out.old out.new }
{
    put_byte(out, at, b'\n')
}

// The line of any number and place, not of a reason's alone. A place of 64 bits has at most 20 digits.
pub fn refused_line(out: &mut [u8], number: u8, place: usize) -> usize
    requires { 40 ≤ length out.old }
    ensures { Puts (refused_line number place) 0 result out.old out.new }
{
    let space = put_refused(out, 0, number);
    let digits = put_byte(out, space, b' ');
    let end = put_decimal(out, digits, place);
    line_end(out, end)
}

// The front of a line on an item: a word and the item's path, each with a blank behind it.
fn put_start(out: &mut [u8], word: &[u8], schema: &[u8], item: &[u8]) -> usize
    requires { length word.now + (length schema.now + 1 + length item.now) + 2 ≤ length out.old }
    ensures { Puts (start_text word.now schema.now item.now) 0 result out.old out.new }
{
    let space = put_bytes(out, 0, word);
    let path = put_byte(out, space, b' ');
    let end = put_path(out, path, schema, item);
    put_byte(out, end, b' ')
}

pub fn supertype_line(
    out: &mut [u8],
    schema: &[u8],
    item: &[u8],
    count: Result<usize, Refusal>,
) -> usize
    requires { Counted count × (length schema.now + length item.now + 26 ≤ length out.old) }
    ensures { Puts (supertype_line schema.now item.now (told count)) 0 result out.old out.new }
{
    let start = put_start(out, b"supertype", schema, item);
    let end = put_count(out, start, count);
    line_end(out, end)
}

pub fn type_line(out: &mut [u8], schema: &[u8], item: &[u8], asked: Result<Flags, Refusal>) -> usize
    requires { length schema.now + length item.now + 21 ≤ length out.old }
    ensures { Puts (type_line schema.now item.now (told_flags asked)) 0 result out.old out.new }
{
    let start = put_start(out, b"type", schema, item);
    let end = put_flags(out, start, asked);
    line_end(out, end)
}

// A part's line begins with its number and a blank; its paths follow one by one, and then the line's end.
pub fn part_start(out: &mut [u8], number: usize) -> usize
    requires { (number ≤ 65535) × (6 ≤ length out.old) }
    ensures { Puts (decimal number ++ blank) 0 result out.old out.new }
{
    let end = put_decimal(out, 0, number);
    put_byte(out, end, b' ')
}

// One path more: a comma stands between two.
pub fn put_next(out: &mut [u8], at: usize, first: bool, schema: &[u8], item: &[u8]) -> usize
    requires { at + (length schema.now + 2 + length item.now) ≤ length out.old }
    ensures { Puts (next_text first (path_text schema.now item.now)) at result out.old out.new }
{
    if first {
        return put_path(out, at, schema, item);
    }
    let path = put_byte(out, at, b',');
    put_path(out, path, schema, item)
}
