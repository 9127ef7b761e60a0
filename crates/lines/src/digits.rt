// Values in hex digits, two for each of a value's bytes.
ghost use Rattle.std.specs.Prelude.{◌≡◌, ℕ, ◌<◌, length, IfSome};
ghost use Rattle.lines.specs.Places.{Written};

use crate::writing::put;

pub trait Hex: Copy {
    // How many digits a value has.
    ghost width: { ℕ };

    // The value, if the digits are just its own.
    fn of(digits: &[u8]) -> Option<Self>
        ensures { IfSome result (λ value. length digits.now ≡ width) };

    // Its digits go to a place.
    fn write(self, out: &mut [u8], at: usize) -> usize
        ensures { Written at result out.old out.new };
}

impl Hex for u8 {
    ghost width = { 2 };

    fn of(digits: &[u8]) -> Option<u8> {
        let [high, low] = digits else {
            return None;
        };
        Some(16 * digit_of(*high)? + digit_of(*low)?)
    }

    #[tactic(auto, using(crate::proofs::Writes::writes))]
    fn write(self, out: &mut [u8], at: usize) -> usize {
        let last = put(out, at, glyph(self / 16));
        put(out, last, glyph(self % 16))
    }
}

impl Hex for u16 {
    ghost width = { 4 };

    fn of(digits: &[u8]) -> Option<u16> {
        if digits.len() != 4 {
            return None;
        }
        let (high, low) = digits.split_at(2);
        Some(256 * u16::from(u8::of(high)?) + u16::from(u8::of(low)?))
    }

    #[tactic(auto, using(crate::proofs::Writes::writes))]
    fn write(self, out: &mut [u8], at: usize) -> usize {
        let middle = ((self / 256) as u8).write(out, at);
        ((self % 256) as u8).write(out, middle)
    }
}

// The value of a lower-case hex digit.
fn digit_of(glyph: u8) -> Option<u8>
    ensures { IfSome result (λ digit. digit < 16) }
{
    match glyph {
        b'0'..=b'9' => Some(glyph - b'0'),
        b'a'..=b'f' => Some(glyph - b'a' + 10),
        _ => None,
    }
}

// The digit of a value under 16.
pub(crate) fn glyph(digit: u8) -> u8 {
    match digit {
        0..=9 => b'0' + digit,
        10..=15 => b'a' + (digit - 10),
        _ => b'?',
    }
}
