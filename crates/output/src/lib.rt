// The cleaned image.
#![tactic(auto)]

pub mod bytes;
pub mod left;
pub mod mark;
pub mod writer;
