// The report's lines, from the entries of work. That a number is below a count of the plan stays a clause: it is of two parameters.
#![tactic(auto)]

pub mod alike;
pub mod decided;
pub mod entries;
pub mod format;
pub mod leading;
pub mod listing;
pub mod names;
pub mod notes;
pub mod removed;
pub mod repeated;
pub mod sentence;
pub mod uncovered;
pub mod undecided;

// A round after all: what is there then never fell. It is compared as any round is, where an option would be a case apart.
const AFTER_ALL: usize = 4096;
