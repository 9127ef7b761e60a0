// A line's question goes to the crate that answers such questions; a sheet is decoded first.
ghost use Rattle.lines.specs.Places.{Written};

use replay_answers::unknown;
use replay_names::scope_order;

// The longest sheet that is asked has 65,536 bytes.
pub const SHEET: usize = 65600;

// Writes the answer to a line; answers its length.
pub fn answer(line: &[u8], out: &mut [u8]) -> usize
    ensures { Written 0 result out.old out.new }
{
    match lines::word(line, 0) {
        b"verdict"
        | b"resolve"
        | b"get"
        | b"schema_name"
        | b"item_name"
        | b"as_path"
        | b"is_supertype"
        | b"supertype"
        | b"list"
        | b"number_of"
        | b"set_at"
        | b"from_path" => { of_sheet(line, out) }
        b"scope_order" => scope_order(line, out),
        _ => replay_rows::answer(line, out),
    }
}

fn of_sheet(line: &[u8], out: &mut [u8]) -> usize
    ensures { Written 0 result out.old out.new }
{
    let mut bytes = [0u8; SHEET];
    let Some(count) = lines::bytes(lines::word(line, 1), &mut bytes) else {
        return unknown(out);
    };
    of_bytes(line, out, &bytes[..count])
}

// A sheet as it was read.
fn of_bytes(line: &[u8], out: &mut [u8], sheet: &[u8]) -> usize
    ensures { Written 0 result out.old out.new }
{
    match lines::word(line, 0) {
        b"is_supertype" | b"supertype" | b"list" | b"number_of" | b"set_at" | b"from_path" => {
            replay_supertypes::answer(line, out, sheet)
        }
        _ => replay_names::answer(line, out, sheet),
    }
}
