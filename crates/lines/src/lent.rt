// What is lent, a result buffer or a workspace: the pattern that it is lent with, and what became of it.
ghost use Rattle.std.specs.Prelude.{◌≡◌, ◌+◌, ◌≤◌, ◌%◌, length};
ghost use Rattle.lines.specs.Places.{Written};
ghost use Rattle.lines.specs.Values.{AtMost};

use crate::values::decimal_to;
use crate::writing::{hex, text};

// So many numbers on the pattern is the same again.
const TURN: usize = 20000;

// The number that stands at a place of a buffer as it is lent.
fn lent(place: usize) -> u16
    ensures { result ≡ 40000 + place % 20000 }
{
    (40000 + place % TURN) as u16
}

// How many of the numbers are lent, as the word says. All are filled, so a change past them would show.
pub fn lend(word: &[u8], buffer: &mut [u16]) -> Option<usize>
    ensures { AtMost (length buffer.new) result }
{
    for turn in buffer.chunks_mut(TURN) {
        fill(turn);
    }
    decimal_to(word, buffer.len())
}

// Fills the numbers from where the pattern begins, without a remainder for each of them: many are filled at once then.
fn fill(turn: &mut [u16])
    requires { length turn.old ≤ 20000 }
    ensures { length turn.new ≡ length turn.old }
{
    for (place, number) in turn.iter_mut().enumerate() {
        *number = (40000 + place) as u16;
    }
}

// How many numbers there are up to the last that is not as it was lent.
fn changed(buffer: &[u16]) -> usize
    ensures { result ≤ length buffer.now }
{
    (0..buffer.len())
        .rev()
        .find(|place| buffer[*place] != lent(*place))
        .map_or(0, |place| place + 1)
}

// What was changed in the buffer.
#[tactic(auto, using(crate::proofs::Writes::writes))]
pub fn changes(out: &mut [u8], at: usize, buffer: &[u16]) -> usize
    ensures { Written at result out.old out.new }
{
    let end = text(out, at, b" out ");
    let count = changed(buffer);
    hex(out, end, &buffer[..count])
}

// An answer's last part: how the workspace was given back.
pub fn state(out: &mut [u8], at: usize, workspace: &[u16]) -> usize
    ensures { Written at result out.old out.new }
{
    let end = text(out, at, b" ws ");
    if changed(workspace) == 0 {
        return text(out, end, b"left");
    }
    if workspace.iter().all(|number| *number == 0) {
        return text(out, end, b"zero");
    }
    text(out, end, b"other")
}
