// The questions on a sheet with a workspace: supertypes, their lists and the sets in these, types.
#![tactic(auto)]

ghost use Rattle.std.specs.Prelude.{◌≡◌, ◌≤◌, MatchOption};
ghost use Rattle.lines.specs.Places.{Written};

use constraints::{is_supertype, list, number_of, row_at, supertype_at};
use replay_answers::{BUFFER, listed, refused, unknown};
use replay_names::{QUERY, numbered};
use type_ref::{TypeRef, from_path};

// The longest workspace that is lent.
const WORKSPACE: usize = 65535;

// A good row has 13 numbers, the longest word that is asked for one 26.
const ROW: usize = 1690;

// Writes the answer to a line that asks of a sheet; answers its length.
pub fn answer(line: &[u8], out: &mut [u8], sheet: &[u8]) -> usize
    ensures { Written 0 result out.old out.new }
{
    let mut workspace = [0u16; WORKSPACE];
    let word = workspace_word(lines::word(line, 0));
    let Some(size) = lines::lend(lines::word(line, word), &mut workspace) else {
        return unknown(out);
    };
    with_workspace(line, out, sheet, &mut workspace[..size])
}

// Which of the line's words is the workspace's length.
fn workspace_word(name: &[u8]) -> usize
    ensures { (3 ≤ result) × (result ≤ 4) }
{
    match name {
        b"number_of" | b"set_at" => 4,
        _ => 3,
    }
}

// The answer, then how the workspace was given back.
fn with_workspace(line: &[u8], out: &mut [u8], sheet: &[u8], workspace: &mut [u16]) -> usize
    ensures { Written 0 result out.old out.new }
{
    let end = answered(line, out, sheet, workspace);
    lines::state(out, end, workspace)
}

fn answered(line: &[u8], out: &mut [u8], sheet: &[u8], workspace: &mut [u16]) -> usize
    ensures { Written 0 result out.old out.new }
{
    match asked(line, out, sheet, workspace) {
        Some(end) => end,
        None => unknown(out),
    }
}

// The answer, where the line is a question.
fn asked(line: &[u8], out: &mut [u8], sheet: &[u8], workspace: &mut [u16]) -> Option<usize>
    ensures { MatchOption result (out.new ≡ out.old) (λ end. Written 0 end out.old out.new) }
{
    match lines::word(line, 0) {
        b"supertype" => supertype(line, out, sheet, workspace),
        _ => of_query(line, out, sheet, workspace),
    }
}

fn supertype(line: &[u8], out: &mut [u8], sheet: &[u8], workspace: &mut [u16]) -> Option<usize>
    ensures { MatchOption result (out.new ≡ out.old) (λ end. Written 0 end out.old out.new) }
{
    let place = lines::decimal_of(lines::word(line, 2))?;
    Some(numbered(out, supertype_at(sheet, place, workspace)))
}

fn of_query(line: &[u8], out: &mut [u8], sheet: &[u8], workspace: &mut [u16]) -> Option<usize>
    ensures { MatchOption result (out.new ≡ out.old) (λ end. Written 0 end out.old out.new) }
{
    let mut query = [0u8; QUERY];
    let count = lines::bytes(lines::word(line, 2), &mut query)?;
    of_path(line, out, sheet, &query[..count], workspace)
}

// A query as it was read.
fn of_path(
    line: &[u8],
    out: &mut [u8],
    sheet: &[u8],
    query: &[u8],
    workspace: &mut [u16],
) -> Option<usize>
    ensures { MatchOption result (out.new ≡ out.old) (λ end. Written 0 end out.old out.new) }
{
    match lines::word(line, 0) {
        b"is_supertype" => Some(numbered(out, is_supertype(sheet, query, workspace))),
        b"from_path" => Some(typed(out, from_path(sheet, query, workspace))),
        b"number_of" => of_row(line, out, sheet, query, workspace),
        b"set_at" => of_number(line, out, sheet, query, workspace),
        _ => all_rows(line, out, sheet, query, workspace),
    }
}

fn of_row(
    line: &[u8],
    out: &mut [u8],
    sheet: &[u8],
    query: &[u8],
    workspace: &mut [u16],
) -> Option<usize>
    ensures { MatchOption result (out.new ≡ out.old) (λ end. Written 0 end out.old out.new) }
{
    let mut row = [0u16; ROW];
    let count = lines::numbers(lines::word(line, 3), &mut row)?;
    let told = number_of(sheet, query, &row[..count], workspace);
    Some(numbered(out, told))
}

fn of_number(
    line: &[u8],
    out: &mut [u8],
    sheet: &[u8],
    query: &[u8],
    workspace: &mut [u16],
) -> Option<usize>
    ensures { MatchOption result (out.new ≡ out.old) (λ end. Written 0 end out.old out.new) }
{
    let mut buffer = [0u16; BUFFER];
    let number = lines::decimal_of(lines::word(line, 3))?;
    let size = lines::lend(lines::word(line, 5), &mut buffer)?;
    let told = row_at(sheet, query, number, workspace, &mut buffer[..size]);
    Some(listed(out, told, &buffer))
}

fn all_rows(
    line: &[u8],
    out: &mut [u8],
    sheet: &[u8],
    query: &[u8],
    workspace: &mut [u16],
) -> Option<usize>
    ensures { MatchOption result (out.new ≡ out.old) (λ end. Written 0 end out.old out.new) }
{
    let mut buffer = [0u16; BUFFER];
    let size = lines::lend(lines::word(line, 4), &mut buffer)?;
    let told = list(sheet, query, workspace, &mut buffer[..size]);
    Some(listed(out, told, &buffer))
}

fn typed(out: &mut [u8], told: TypeRef) -> usize
    ensures { Written 0 result out.old out.new }
{
    match told {
        TypeRef::Refused(why) => refused(out, why),
        TypeRef::Entity(entity) => {
            let start = lines::text(out, 0, b"ok entity");
            flag(out, start, entity.is_supertype)
        }
        TypeRef::Named(named) => {
            let start = lines::text(out, 0, b"ok named");
            let middle = flag(out, start, named.is_simple);
            flag(out, middle, named.is_enumerate)
        }
    }
}

fn flag(out: &mut [u8], at: usize, is_so: bool) -> usize
    ensures { Written at result out.old out.new }
{
    lines::text(out, at, if is_so { b" 1" } else { b" 0" })
}
