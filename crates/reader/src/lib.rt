// The reader: checks a whole image, and says which refusal it meets first.
#![tactic(auto)]

pub mod at;
pub mod check;
pub mod flat;
pub mod rules;
pub mod turns;
