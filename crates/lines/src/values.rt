// The values of words: decimal numbers, bytes and u16 numbers in hex digits.
ghost use Rattle.std.specs.Prelude.{◌<◌};
ghost use Rattle.lines.specs.Values.{AtMost, Decoded};

use crate::digits::Hex;
use crate::words::is;

// The number of a decimal word of at most nine digits.
pub fn decimal_of(word: &[u8]) -> Option<usize>
    ensures { AtMost 9999999999 result }
{
    if word.is_empty() || 9 < word.len() {
        return None;
    }
    let mut value = 0;
    for glyph in word {
        if !glyph.is_ascii_digit() {
            return None;
        }
        value = 10 * value + usize::from(*glyph - b'0');
    }
    Some(value)
}

// The same, if it is at most so large.
pub fn decimal_to(word: &[u8], most: usize) -> Option<usize>
    ensures { AtMost most result }
{
    decimal_of(word).filter(|value| *value <= most)
}

// The bytes of a word, two digits each, go to the front of `out`.
pub fn bytes(word: &[u8], out: &mut [u8]) -> Option<usize>
    ensures { Decoded result out.old out.new }
{
    values(word, 2, out)
}

// The u16 numbers of a word, four digits each, go to the front of `out`.
pub fn numbers(word: &[u8], out: &mut [u16]) -> Option<usize>
    ensures { Decoded result out.old out.new }
{
    values(word, 4, out)
}

// The values of a word, so many digits each, go to the front of `out`; a dash says that there are none.
fn values<T: Hex>(word: &[u8], digits: usize, out: &mut [T]) -> Option<usize>
    requires { 0 < digits }
    ensures { Decoded result out.old out.new }
{
    if word.is_empty() {
        return None;
    }
    if is(word, b"-") {
        return Some(0);
    }
    let mut count = 0;
    for group in word.chunks(digits) {
        let value = T::of(group)?;
        if out.len() <= count {
            return None;
        }
        out[count] = value;
        count += 1;
    }
    Some(count)
}
