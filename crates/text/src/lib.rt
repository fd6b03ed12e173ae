// The text of the report.
#![tactic(auto)]

pub mod counts;
pub mod emit;
pub mod terms;
pub mod writer;
