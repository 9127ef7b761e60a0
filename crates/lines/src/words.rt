// Lines of a text and words of a line.
ghost use Rattle.std.specs.Prelude.{◌≡◌, true, ◌≤◌, length, take};
ghost use Rattle.lines.specs.Places.{Filled, Sought};

// The place of the first such byte from a place on, or the text's end.
pub fn find(text: &[u8], from: usize, byte: u8) -> usize
    ensures { Sought text.now from byte result }
{
    (from..text.len())
        .find(|at| text[*at] == byte)
        .unwrap_or(text.len())
}

// The line's word of a number, counted from 0; a word that is not there is empty.
pub fn word(line: &[u8], number: usize) -> &[u8]
    ensures { length result.now ≤ length line.now }
{
    line.split(|byte| *byte == b' ')
        .nth(number)
        .unwrap_or(&line[..0])
}

// The word has just the name's bytes.
pub fn is(word: &[u8], name: &[u8]) -> bool
    ensures { result ≡ true → word.now ≡ name.now }
{
    word == name
}

// The word is one of some names, with a blank between each two.
pub fn among(word: &[u8], names: &[u8]) -> bool
    ensures { result ≡ true → length word.now ≤ length names.now }
{
    names.split(|byte| *byte == b' ').any(|name| name == word)
}

// So many bytes at the front, or all where there are fewer.
pub fn front(text: &[u8], count: usize) -> &[u8]
    ensures { result.now ≡ take count text.now }
{
    &text[..count.min(text.len())]
}

// What stands between two places moves to the front; the answer is how much that is.
pub fn to_front(text: &mut [u8], from: usize, end: usize) -> usize
    ensures { Filled result text.old text.new }
{
    let stop = end.min(text.len());
    let start = from.min(stop);
    text.copy_within(start..stop, 0);
    stop - start
}
