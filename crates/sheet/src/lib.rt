// The verdict on a sheet: accepted, or refused with document 01's number and place.
#![tactic(auto)]

ghost use Rattle.std.specs.Prelude.{◌≡◌, ℕ, ◌<◌, ◌≤◌, length};
ghost use Rattle.refusal.specs.Told.{number_of, told};
ghost use Rattle.grammar.specs.MeaningReading.Reading.{rust};
ghost use Rattle.grammar.specs.MirrorRows.{rows};
ghost use Rattle.grammar.specs.MirrorTable.{row_count, cell_at, first_row, answer_at};
ghost use Rattle.sheet.specs.MeaningName.{is_letter, is_name_byte, starts_with_letter, is_name};
ghost use Rattle.sheet.specs.Told.{told_reading, told_fault, told_at};
ghost use Rattle.sheet.specs.Promises.{PromiseVerdict};
ghost use Rattle.sheet.specs.MirrorField.{field_at};
ghost use Rattle.sheet.specs.MirrorCheck.{kind_fault, length_fault, value_fault, field_fault, next_count, count_up, at_end, go_on, step_at, walk_at, sheet_check};

use grammar::{
    ANSWER, CLASS, END, FIELDS, KIND, LEVELS, LONGEST, MOST_BYTES, NAME, NAME_BYTES, NEXT, Parent,
    SHORTEST, SIMPLE, Table,
};
use refusal::{Reason, Refusal};

// Under which reading a sheet is judged: what a row of the table answers depends on it.
#[derive(Clone, Copy)]
pub enum Reading {
    Rust,
}

// A field: its tag, and where its value starts and stops.
#[derive(Clone, Copy)]
pub struct Field {
    pub tag: u8,
    pub start: usize,
    pub stop: usize,
}

// How many fields have stood that count for a limit.
#[derive(Clone, Copy, Default)]
pub struct Counts {
    pub schemas: u16,
    pub declarations: u16,
    pub constraints: u16,
    pub terms: u16,
}

impl Counts {
    pub const SCHEMAS: u16 = 8;

    pub const DECLARATIONS: u16 = 256;

    pub const CONSTRAINTS: u16 = 64;
    // Expressions, and names in fields 34.
    pub const TERMS: u16 = 512;
}

// One step in a value. `next` is the value's state after a field. Small parts come first, so that all cases lie alike and a step stays in registers.
#[derive(Clone, Copy)]
pub enum Step {
    // The value ends.
    Done(Counts),
    // A field is passed.
    Past {
        counts: Counts,
        next: u16,
        stop: usize,
    },
    // A field that holds fields is entered: `depth` is left inside it.
    Into {
        counts: Counts,
        next: u16,
        tag: u16,
        depth: u16,
        start: usize,
        stop: usize,
    },
}

// What a sheet is judged by, and its bytes.
#[derive(Clone, Copy)]
struct Judge<'a> {
    reading: Reading,
    table: &'a Table,
    bytes: &'a [u8],
}

// A value that is being read: what holds it, where it ends, and the depth that is left in it.
#[derive(Clone, Copy)]
struct Value {
    parent: Parent,
    end: usize,
    depth: u16,
}

// Levels of expressions, a lone reference being 1.
const MOST_DEPTH: u16 = 5;

// Refuses with the first fault of the sheet, or accepts it if it has none.
pub fn verdict(sheet: &[u8]) -> Result<(), Refusal>
    ensures { PromiseVerdict rust sheet.now result }
{
    verdict_in(Reading::Rust, sheet)
}

// The same in a reading that the caller chooses.
pub fn verdict_in(reading: Reading, sheet: &[u8]) -> Result<(), Refusal>
    ensures { PromiseVerdict (told_reading reading) sheet.now result }
{
    check_sheet(reading, sheet)?;
    Ok(())
}

#[tactic(auto, unfolding(crate::specs::MirrorCheck::sheet_check, crate::specs::MirrorCheck::no_counts))]
fn check_sheet(reading: Reading, sheet: &[u8]) -> Result<Counts, Refusal>
    ensures { told result ≡ sheet_check (told_reading reading) sheet.now }
{
    if usize::from(MOST_BYTES) < sheet.len() {
        return Err(Reason::SheetTooLong.into());
    }
    let table = Table::new();
    let judge = Judge {
        reading,
        table: &table,
        bytes: sheet,
    };
    let whole = Value {
        parent: table.parent(0),
        end: sheet.len(),
        depth: MOST_DEPTH,
    };
    judge.check_fields(whole, 0, Counts::default())
}

impl Judge<'_> {
    // The fields of a value from a place on, each with what stands inside it: the counts after them.
    fn check_fields(&self, value: Value, at: usize, counts: Counts) -> Result<Counts, Refusal>
        requires { (at ≤ value.end) × (value.end ≤ length self.now.bytes.now) }
        ensures { told result ≡ walk_at (told_reading self.now.reading) self.now.bytes.now value.parent.tag 0 at value.end value.depth counts }
    {
        let mut state: u16 = 0;
        let mut from = at;
        let mut c = counts;
        loop {
            match self.step_at(value, state, from, c) {
                Err(reason) => return Err(Refusal::at(reason, from)),
                Ok(Step::Done(counts)) => return Ok(counts),
                Ok(Step::Past { counts, next, stop }) => {
                    from = stop;
                    state = next;
                    c = counts;
                }
                Ok(
                    Step::Into {
                        counts,
                        next,
                        tag,
                        depth,
                        start,
                        stop,
                    },
                ) => {
                    let parent = self.table.parent(tag);
                    let inside = Value {
                        parent,
                        end: stop,
                        depth,
                    };
                    let answer = self.check_fields(inside, start, counts);
                    let Ok(after) = answer else {
                        return answer;
                    };
                    c = after;
                    from = stop;
                    state = next;
                }
            }
        }
    }

    // All that is checked at one place, in the order 3, 4, 5.
    #[tactic(auto, using(crate::proofs::Deciding::stepping), unfolding(crate::specs::MirrorCheck::step_at, crate::specs::MirrorCheck::on_field, crate::specs::MirrorCheck::on_fault, crate::specs::MirrorCheck::on_count))]
    fn step_at(&self, value: Value, state: u16, at: usize, counts: Counts) -> Result<Step, Reason>
        requires { (at ≤ value.end) × (value.end ≤ length self.now.bytes.now) }
        ensures { told_at at result ≡ step_at (told_reading self.now.reading) self.now.bytes.now value.parent.tag state at value.end value.depth counts }
    {
        if at == value.end {
            return end_step(self.table, value.parent, state, counts);
        }
        let field = field_at(self.bytes, at, value.end).ok_or(Reason::Misfit)?;
        let tag = u16::from(field.tag);
        let row = self
            .table
            .row_of(value.parent, state, tag)
            .ok_or(Reason::Misfit)?;
        self.field_fault(&self.bytes[field.start..field.stop], row, value.depth)?;
        let counts = count_up(self.table.cell(row, CLASS), counts).ok_or(Reason::TooMuch)?;
        Ok(go_on(self.table, row, field, value.depth, counts))
    }

    // The fault of a field by itself, whatever has stood before it.
    #[tactic(auto, unfolding(crate::specs::MirrorCheck::field_fault, crate::specs::MirrorCheck::or_next, crate::specs::MirrorCheck::depth_fault))]
    fn field_fault(&self, v: &[u8], row: usize, depth: u16) -> Result<(), Reason>
        requires { row < row_count }
        ensures { told_fault result ≡ field_fault (told_reading self.now.reading) v.now row depth }
    {
        self.row_answer(row)?;
        value_fault(self.table, v, row)?;
        if depth < self.table.cell(row, LEVELS) {
            return Err(Reason::TooMuch);
        }
        Ok(())
    }

    // What a row answers: the tag may stand, or why it is refused.
    #[tactic(auto, using(grammar::proofs::Serving::answer_small), unfolding(grammar::specs::MirrorTable::answer_at, crate::specs::Told::told_reading))]
    fn row_answer(&self, row: usize) -> Result<(), Reason>
        requires { row < row_count }
        ensures { told_fault result ≡ answer_at (told_reading self.now.reading) row }
    {
        match self.reading {
            Reading::Rust => answer_of(self.table.cell(row, ANSWER)),
        }
    }
}

// The end of a value: no needed field may be missing.
#[tactic(auto, unfolding(crate::specs::MirrorCheck::at_end, grammar::specs::MirrorTable::in_table))]
fn end_step(table: &Table, parent: Parent, state: u16, counts: Counts) -> Result<Step, Reason>
    ensures { (at : ℕ) → told_at at result ≡ at_end parent.tag state at counts }
{
    table.row_of(parent, state, END).ok_or(Reason::Misfit)?;
    Ok(Step::Done(counts))
}

// After a field without a fault: into its value if it holds fields, otherwise past it.
#[tactic(auto, unfolding(crate::specs::MirrorCheck::go_on))]
fn go_on(table: &Table, row: usize, field: Field, depth: u16, counts: Counts) -> Step
    requires { (row < row_count) × (cell_at row 9 ≤ depth) }
    ensures { result ≡ go_on field.tag field.start field.stop row depth counts }
{
    let next = table.cell(row, NEXT);
    if table.cell(row, KIND) != FIELDS {
        return Step::Past {
            counts,
            next,
            stop: field.stop,
        };
    }
    Step::Into {
        counts,
        next,
        tag: u16::from(field.tag),
        depth: depth - table.cell(row, LEVELS),
        start: field.start,
        stop: field.stop,
    }
}

// The fault of a value.
#[tactic(auto, unfolding(crate::specs::MirrorCheck::value_fault))]
fn value_fault(table: &Table, v: &[u8], row: usize) -> Result<(), Reason>
    requires { row < row_count }
    ensures { told_fault result ≡ value_fault v.now row }
{
    let kind = table.cell(row, KIND);
    if v.len() < usize::from(table.cell(row, SHORTEST)) {
        return Err(length_fault(kind));
    }
    if usize::from(table.cell(row, LONGEST)) < v.len() {
        return Err(length_fault(kind));
    }
    kind_fault(v, kind)
}

// A wrong length is a fault of a name, or of any other value.
#[tactic(auto, unfolding(crate::specs::MirrorCheck::length_fault))]
fn length_fault(kind: u16) -> Reason
    ensures { number_of result ≡ length_fault kind }
{
    if kind == NAME {
        Reason::BadName
    } else {
        Reason::Misfit
    }
}

// A value that has a length of its kind.
#[tactic(auto, unfolding(crate::specs::MirrorCheck::kind_fault))]
fn kind_fault(v: &[u8], kind: u16) -> Result<(), Reason>
    ensures { told_fault result ≡ kind_fault v.now kind }
{
    match kind {
        NAME if !is_name(v) => Err(Reason::BadName),
        SIMPLE if v.first().is_some_and(|b| 6 < *b) => Err(Reason::Misfit),
        _ => Ok(()),
    }
}

// All counts after a field of this class, if none passes its most.
#[tactic(auto, unfolding(crate::specs::MirrorCheck::count_up, crate::specs::MirrorCheck::then_count))]
fn count_up(class: u16, c: Counts) -> Option<Counts>
    ensures { result ≡ count_up class c }
{
    Some(Counts {
        schemas: next_count(class, 1, c.schemas, Counts::SCHEMAS)?,
        declarations: next_count(class, 2, c.declarations, Counts::DECLARATIONS)?,
        constraints: next_count(class, 3, c.constraints, Counts::CONSTRAINTS)?,
        terms: next_count(class, 4, c.terms, Counts::TERMS)?,
    })
}

// One count after a field of this class: one more, if the class is the count's own.
#[tactic(auto, unfolding(crate::specs::MirrorCheck::next_count))]
fn next_count(class: u16, own: u16, count: u16, most: u16) -> Option<u16>
    ensures { result ≡ next_count class own count most }
{
    if class != own {
        return Some(count);
    }
    if count < most {
        return Some(count + 1);
    }
    None
}

// The field at a place of a value that ends at `end`, if its header and its value end by there too.
#[tactic(auto, unfolding(crate::specs::MirrorField::field_at))]
pub fn field_at(s: &[u8], at: usize, end: usize) -> Option<Field>
    requires { (at ≤ end) × (end ≤ length s.now) }
    ensures { result ≡ field_at s.now at end }
{
    if end - at < 3 {
        return None;
    }
    // `u16::from_be_bytes` was tried: with it a verdict takes a third longer.
    let n = usize::from(s[at + 1]) * 256 + usize::from(s[at + 2]);
    let start = at + 3;
    if end - start < n {
        return None;
    }
    Some(Field {
        tag: s[at],
        start,
        stop: start + n,
    })
}

// 1 to 32 bytes, a letter, then letters, digits or underscores.
#[tactic(auto, unfolding(crate::specs::MeaningName::is_name))]
pub fn is_name(v: &[u8]) -> bool
    ensures { result ≡ is_name v.now }
{
    v.len() <= usize::from(NAME_BYTES)
        && starts_with_letter(v)
        && v.iter().all(|b| is_name_byte(*b))
}

#[tactic(auto, unfolding(crate::specs::MeaningName::starts_with_letter))]
fn starts_with_letter(v: &[u8]) -> bool
    ensures { result ≡ starts_with_letter v.now }
{
    v.first().is_some_and(|b| is_letter(*b))
}

#[tactic(auto, unfolding(crate::specs::MeaningName::is_name_byte, crate::specs::MeaningName::is_letter))]
fn is_name_byte(b: u8) -> bool
    ensures { result ≡ is_name_byte b }
{
    b.is_ascii_alphanumeric() || b == b'_'
}

#[tactic(auto, unfolding(crate::specs::MeaningName::is_letter))]
fn is_letter(b: u8) -> bool
    ensures { result ≡ is_letter b }
{
    b.is_ascii_alphabetic()
}

// An answer by its number: 0, or a reason's.
fn answer_of(number: u16) -> Result<(), Reason>
    requires { number < 18 }
    ensures { told_fault result ≡ number }
{
    Err(match number {
        0 => return Ok(()),
        1 => Reason::SheetTooLong,
        2 => Reason::WorkspaceTooShort,
        3 => Reason::Misfit,
        4 => Reason::BadName,
        5 => Reason::TooMuch,
        6 => Reason::Undeclared,
        7 => Reason::NoDeclaration,
        8 => Reason::SecondRule,
        9 => Reason::TooFewTerms,
        10 => Reason::TooManyFactors,
        11 => Reason::TooManySets,
        12 => Reason::BufferTooShort,
        13 => Reason::NamedThroughItself,
        14 => Reason::NoType,
        15 => Reason::Malformed,
        16 => Reason::NoSupertype,
        _ => Reason::NoNumber,
    })
}
