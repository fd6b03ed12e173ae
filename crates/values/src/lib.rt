// Expressions in marks: an input and answers as they are lent, values as a run holds them.
#![tactic(auto)]

pub mod levels;
pub mod read;
pub mod tokens;
