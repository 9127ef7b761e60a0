// The line protocol's questions and answers: finding lines and words, reading values, writing answers.
#![tactic(auto)]

mod digits;
mod lent;
mod values;
mod words;
mod writing;

pub use digits::Hex;
pub use lent::{changes, lend, state};
pub use values::{bytes, decimal_of, decimal_to, numbers};
pub use words::{among, find, front, is, to_front, word};
pub use writing::{decimal, hex, put, text};
