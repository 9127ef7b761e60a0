// The public questions for C: each answers a refusal's number, 0 where there is none, and writes the answer's value, or the refusal's place, where the caller points.
// They differ in the question alone, and stay one by one: the C interface names each.
#![tactic(auto)]

pub mod combinations;
pub mod lists;
pub mod names;
pub mod sheets;
