// after espr/src/ir/complex_entity.rs of ruststep cd89e5a7cd, Apache-2.0; changed
//
// Rows as a caller lends them: operands are read from them, with nothing checked beforehand, and results handed out to them.
#![tactic(auto)]

ghost use Rattle.std.specs.Prelude.{◌≡◌, [], ◌∷◌, ◌≤◌, length};
ghost use Rattle.complex_entity.specs.MirrorParts.{names_of};
ghost use Rattle.instantiables.specs.Told.{told_listed};
ghost use Rattle.operands.specs.MeaningOperands as operands;
ghost use Rattle.operands.specs.MeaningOperands.{is_row, a_list, a_part};
ghost use Rattle.operands.specs.MeaningResults.{fitting};
ghost use Rattle.operands.specs.MirrorOperands.{good_from, judged, counts_of};
ghost use Rattle.operands.specs.MirrorResults.{Within, Handed};
ghost use Rattle.operands.specs.Promises.{Answers};

use complex_entity::PartialComplexEntity;
use instantiables::Instantiables;
use refusal::{Reason, Refusal};
use rows::copy;

// What an operand is to be.
pub trait Operand {
    ghost meaning: { operands.Operand };

    // All the rows are good, or the first that is wrong is named by its number.
    fn read(rows: &[u16]) -> Result<(), usize>
        ensures { result ≡ judged (counts_of meaning rows.now) rows.now };
}

pub struct List;

impl Operand for List {
    ghost meaning = { a_list };

    // As many rows as there are, a cut one too; of more than 128 the 129th is wrong, whatever comes after it.
    fn read(rows: &[u16]) -> Result<(), usize> {
        if rows.len() > Instantiables::ROOM {
            return read_lists(&[129], rows);
        }
        let count = rows.len().div_ceil(PartialComplexEntity::ROW);
        read_lists(&[count as u16], rows)
    }
}

pub struct Part;

impl Operand for Part {
    ghost meaning = { a_part };

    // A part is a list of one row.
    fn read(rows: &[u16]) -> Result<(), usize> {
        read_lists(&[1], rows)
    }
}

// Lists of so many rows each, one after another.
pub fn read_lists(counts: &[u16], rows: &[u16]) -> Result<(), usize>
    ensures { result ≡ judged counts.now rows.now }
{
    // The sum of the counts so far, by which rows are named: a fold over it is no plainer.
    let mut k = 0;
    for &count in counts {
        let n = usize::from(count);
        let good = good_rows(&rows[PartialComplexEntity::ROW * k..], n);
        if good < n {
            return Err(k + good);
        }
        k += n;
    }
    if PartialComplexEntity::ROW * k < rows.len() {
        return Err(k);
    }
    Ok(())
}

// How many of n rows are good, up to the first that is not; at most 128 are.
fn good_rows(rows: &[u16], n: usize) -> usize
    ensures { (result ≡ good_from 0 n rows.now) × (result ≤ 128) }
{
    rows.chunks_exact(PartialComplexEntity::ROW)
        .take(n.min(Instantiables::LIMIT))
        .take_while(|row| is_row(row))
        .count()
}

// A count, that many rising indices of at most 255, zeros. `low` is the least name that may come next.
// One walk over the thirteen places, whose number is known where it is compiled: a test for each of names, indices and zeros takes half as long again.
fn is_row(row: &[u16]) -> bool
    ensures { result ≡ is_row row.now }
{
    if row.len() != PartialComplexEntity::ROW {
        return false;
    }
    let count = row[0] as usize;
    if count > PartialComplexEntity::LIMIT {
        return false;
    }
    let mut low = 0;
    for i in 1..PartialComplexEntity::ROW {
        let x = row[i];
        if i <= count {
            if x < low {
                return false;
            }
            if x > PartialComplexEntity::LAST {
                return false;
            }
            low = x + 1;
        } else if x != 0 {
            return false;
        }
    }
    true
}

// ---- results

// The result's rows go to the buffer, if they fit; otherwise 12, and the buffer stays.
pub fn hand_out(
    answer: Result<Instantiables, Refusal>,
    work: &[u16],
    out: &mut [u16],
) -> Result<Instantiables, Refusal>
    requires { Within (told_listed answer) work.now }
    ensures { Handed (told_listed answer) work.now out.old (told_listed result) out.new }
{
    let Ok(list) = answer else {
        return answer;
    };
    let numbers = PartialComplexEntity::ROW * list.count;
    if out.len() < numbers {
        return Err(Reason::BufferTooShort.into());
    }
    copy(out, work, numbers);
    answer
}

// A part's row goes to the buffer, if it fits.
pub fn hand_out_part(part: PartialComplexEntity, out: &mut [u16]) -> Result<Instantiables, Refusal>
    ensures { Answers (fitting (length out.old) (names_of part ∷ [])) out.old result out.new }
{
    if out.len() < PartialComplexEntity::ROW {
        return Err(Reason::BufferTooShort.into());
    }
    part.write(out, 0);
    Ok(Instantiables { count: 1 })
}
