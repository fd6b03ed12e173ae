// The image: the parts that the layers above take from it.
#![tactic(auto)]

pub mod number;
pub mod part;
