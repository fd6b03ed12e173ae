// Functions, sentences and call sites as entries of work: what no round can change.
// How long body and work are at most is a clause of each function that is lent them; that a number is below a count stays one, as it
// is of two parameters.
#![tactic(auto)]

pub mod classes;
pub mod columns;
pub mod dispatch;
pub mod links;
pub mod listing;
pub mod names;
pub mod table;

// How many functions, sentences of their own and call sites a program has: so the columns of work are laid out.
#[derive(Clone, Copy)]
pub struct Plan {
    pub functions: usize,
    pub sentences: usize,
    pub sites: usize,
}
