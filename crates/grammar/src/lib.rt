// The table of tags: which tag may stand where in its parent, and what its value may hold.
#![tactic(auto)]

ghost use Rattle.std.specs.Prelude.{◌≡◌, ◌<◌, [], get_or};
ghost use Rattle.grammar.specs.MirrorRows.{rows};
ghost use Rattle.grammar.specs.MirrorTable.{row_count, column_count, cell_at, belongs, serves, in_table, first_row, row_of};

pub const MOST_BYTES: u16 = 65535;

pub const NAME_BYTES: u16 = 32;

// ---- The table. Its columns:

const PARENT: usize = 0;

const TAG: usize = 1;

// The first and the last state of the parent in which the tag may stand. A state says how many slots of its value are over.
const FIRST: usize = 2;

const LAST: usize = 3;

// The parent's state after it.
pub const NEXT: usize = 4;

// Bytes of its value.
pub const SHORTEST: usize = 5;

pub const LONGEST: usize = 6;

pub const KIND: usize = 7;

// Which count it counts for.
pub const CLASS: usize = 8;

// How many levels of expression depth it takes.
pub const LEVELS: usize = 9;

// 0, or the number that the tag is refused with.
pub const ANSWER: usize = 10;

pub const COLUMNS: usize = 11;

// A tag that no byte is: its row says in which states the parent's value may end.
pub const END: u16 = 256;

// Kinds of values, numbers as the cells of the table are; 3 is an empty one.
pub const FIELDS: u16 = 0;

pub const NAME: u16 = 1;

pub const SIMPLE: u16 = 2;

pub const ROW_COUNT: usize = 52;

// Every tag with its permitted parents and lengths.
const ROWS: [[u16; COLUMNS]; ROW_COUNT] = [
    [0x00, 0x01, 0, 0, 0, 0, MOST_BYTES, 0, 1, 0, 0],
    [0x00, END, 0, 1, 0, 0, 0, 3, 0, 0, 0],
    [0x01, 0x10, 0, 0, 1, 1, NAME_BYTES, 1, 0, 0, 0],
    [0x01, 0x20, 1, 1, 1, 0, MOST_BYTES, 0, 2, 0, 0],
    [0x01, 0x30, 1, 2, 2, 0, MOST_BYTES, 0, 2, 0, 0],
    [0x01, 0x40, 1, 3, 3, 0, MOST_BYTES, 0, 3, 0, 0],
    [0x01, END, 1, 4, 0, 0, 0, 3, 0, 0, 0],
    [0x20, 0x10, 0, 0, 1, 1, NAME_BYTES, 1, 0, 0, 0],
    [0x20, 0x21, 1, 1, 2, 1, 1, 2, 0, 0, 0],
    [0x20, 0x22, 1, 1, 2, 0, 0, 3, 0, 0, 0],
    [0x20, 0x23, 1, 1, 2, 1, NAME_BYTES, 1, 0, 0, 0],
    [0x20, 0x24, 1, 1, 2, 0, 0, 3, 0, 0, 0],
    [0x20, END, 2, 2, 0, 0, 0, 3, 0, 0, 0],
    [0x30, 0x10, 0, 0, 1, 1, NAME_BYTES, 1, 0, 0, 0],
    [0x30, 0x31, 1, 1, 2, 0, MOST_BYTES, 0, 0, 0, 0],
    [0x30, 0x32, 1, 1, 2, 0, 0, 3, 0, 0, 0],
    [0x30, 0x33, 1, 1, 2, 0, MOST_BYTES, 0, 0, 0, 0],
    [0x30, 0x34, 1, 2, 3, 0, MOST_BYTES, 0, 0, 0, 0],
    [0x30, END, 1, 3, 0, 0, 0, 3, 0, 0, 0],
    [0x31, 0x50, 0, 0, 1, 1, NAME_BYTES, 1, 4, 1, 0],
    [0x31, 0x51, 0, 0, 1, 0, MOST_BYTES, 0, 4, 1, 0],
    [0x31, 0x52, 0, 0, 1, 0, MOST_BYTES, 0, 4, 1, 0],
    [0x31, 0x53, 0, 0, 1, 0, MOST_BYTES, 0, 4, 1, 0],
    [0x31, END, 1, 1, 0, 0, 0, 3, 0, 0, 0],
    [0x33, 0x50, 0, 0, 1, 1, NAME_BYTES, 1, 4, 1, 0],
    [0x33, 0x51, 0, 0, 1, 0, MOST_BYTES, 0, 4, 1, 0],
    [0x33, 0x52, 0, 0, 1, 0, MOST_BYTES, 0, 4, 1, 0],
    [0x33, 0x53, 0, 0, 1, 0, MOST_BYTES, 0, 4, 1, 0],
    [0x33, END, 0, 1, 0, 0, 0, 3, 0, 0, 0],
    [0x34, 0x10, 0, 0, 0, 1, NAME_BYTES, 1, 4, 0, 0],
    [0x34, END, 0, 1, 0, 0, 0, 3, 0, 0, 0],
    [0x40, 0x10, 0, 0, 1, 1, NAME_BYTES, 1, 0, 0, 0],
    [0x40, 0x50, 1, 1, 2, 1, NAME_BYTES, 1, 4, 1, 0],
    [0x40, 0x51, 1, 1, 2, 0, MOST_BYTES, 0, 4, 1, 0],
    [0x40, 0x52, 1, 1, 2, 0, MOST_BYTES, 0, 4, 1, 0],
    [0x40, 0x53, 1, 1, 2, 0, MOST_BYTES, 0, 4, 1, 0],
    [0x40, END, 1, 2, 0, 0, 0, 3, 0, 0, 0],
    [0x51, 0x50, 0, 0, 0, 1, NAME_BYTES, 1, 4, 1, 0],
    [0x51, 0x51, 0, 0, 0, 0, MOST_BYTES, 0, 4, 1, 0],
    [0x51, 0x52, 0, 0, 0, 0, MOST_BYTES, 0, 4, 1, 0],
    [0x51, 0x53, 0, 0, 0, 0, MOST_BYTES, 0, 4, 1, 0],
    [0x51, END, 0, 1, 0, 0, 0, 3, 0, 0, 0],
    [0x52, 0x50, 0, 0, 0, 1, NAME_BYTES, 1, 4, 1, 0],
    [0x52, 0x51, 0, 0, 0, 0, MOST_BYTES, 0, 4, 1, 0],
    [0x52, 0x52, 0, 0, 0, 0, MOST_BYTES, 0, 4, 1, 0],
    [0x52, 0x53, 0, 0, 0, 0, MOST_BYTES, 0, 4, 1, 0],
    [0x52, END, 0, 1, 0, 0, 0, 3, 0, 0, 0],
    [0x53, 0x50, 0, 0, 0, 1, NAME_BYTES, 1, 4, 1, 0],
    [0x53, 0x51, 0, 0, 0, 0, MOST_BYTES, 0, 4, 1, 0],
    [0x53, 0x52, 0, 0, 0, 0, MOST_BYTES, 0, 4, 1, 0],
    [0x53, 0x53, 0, 0, 0, 0, MOST_BYTES, 0, 4, 1, 0],
    [0x53, END, 0, 1, 0, 0, 0, 3, 0, 0, 0],
];

// The table, made once for all that is asked of it: a constant is made anew wherever it is named.
#[derive(Drop)]
pub struct Table {
    cells: [[u16; COLUMNS]; ROW_COUNT],
    pub ghost made: { cells ≡ rows },
}

// A parent's tag (0: the sheet), and its first row, or the number of rows: before `first` no row is the parent's.
#[derive(Clone, Copy)]
pub struct Parent {
    pub tag: u16,
    pub first: usize,
    pub ghost found: { first ≡ first_row tag },
}

impl Table {
    pub fn new() -> Self
        ensures { result.cells ≡ rows }
    {
        Self { cells: ROWS }
    }

    // The parent with this tag.
    #[tactic(auto, using(crate::proofs::Serving::first_or_past))]
    pub fn parent(&self, tag: u16) -> Parent
        ensures { result.tag ≡ tag }
    {
        let first = self.first_row(tag).unwrap_or(ROW_COUNT);
        Parent { tag, first }
    }

    // The first row of the parent.
    pub fn first_row(&self, parent: u16) -> Option<usize>
        ensures { result ≡ in_table (first_row parent) }
    {
        (0..ROW_COUNT).find(|i| self.belongs(*i, parent))
    }

    // The first row for the tag in this state of its parent.
    pub fn row_of(&self, parent: Parent, state: u16, tag: u16) -> Option<usize>
        ensures { result ≡ in_table (row_of parent.tag state tag) }
    {
        (parent.first..ROW_COUNT).find(|i| self.serves(*i, parent.tag, state, tag))
    }

    // Is the row for this parent and tag, and the state within its bounds?
    #[tactic(auto, unfolding(crate::specs::MirrorTable::serves, crate::specs::MirrorTable::cell_at))]
    fn serves(&self, i: usize, parent: u16, state: u16, tag: u16) -> bool
        requires { i < row_count }
        ensures { result ≡ serves parent state tag (get_or rows i []) }
    {
        self.belongs(i, parent)
            && self.cell(i, TAG) == tag
            && self.cell(i, FIRST) <= state
            && state <= self.cell(i, LAST)
    }

    #[tactic(auto, unfolding(crate::specs::MirrorTable::belongs, crate::specs::MirrorTable::cell_at))]
    fn belongs(&self, i: usize, parent: u16) -> bool
        requires { i < row_count }
        ensures { result ≡ belongs parent (get_or rows i []) }
    {
        self.cell(i, PARENT) == parent
    }

    // The table is asked here and nowhere else.
    #[tactic(auto, unfolding(crate::specs::MirrorTable::cell_at))]
    pub fn cell(&self, i: usize, j: usize) -> u16
        requires { (i < row_count) × (j < column_count) }
        ensures { result ≡ cell_at i j }
    {
        self.cells[i][j]
    }
}
