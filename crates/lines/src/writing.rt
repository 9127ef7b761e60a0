// Writing into a lent text at a place, as far as there is room; the answer is the place after.
ghost use Rattle.lines.specs.Places.{Written};

use crate::digits::{Hex, glyph};

pub fn put(out: &mut [u8], at: usize, byte: u8) -> usize
    ensures { Written at result out.old out.new }
{
    if at < out.len() {
        out[at] = byte;
        return at + 1;
    }
    at
}

pub fn text(out: &mut [u8], at: usize, bytes: &[u8]) -> usize
    ensures { Written at result out.old out.new }
{
    let mut end = at;
    for byte in bytes {
        end = put(out, end, *byte);
    }
    end
}

#[tactic(auto, using(crate::proofs::Writes::writes))]
pub fn decimal(out: &mut [u8], at: usize, number: usize) -> usize
    ensures { Written at result out.old out.new }
{
    if number < 10 {
        return put(out, at, glyph(number as u8));
    }
    let end = decimal(out, at, number / 10);
    put(out, end, glyph((number % 10) as u8))
}

// The word of some values.
pub fn hex<T: Hex>(out: &mut [u8], at: usize, values: &[T]) -> usize
    ensures { Written at result out.old out.new }
{
    if values.is_empty() {
        return put(out, at, b'-');
    }
    let mut end = at;
    for value in values {
        end = value.write(out, end);
    }
    end
}
