// Matching a pattern of the body with a value of the state.
#![tactic(auto)]

pub mod back;
pub mod bindings;
pub mod steps;
pub mod taken;
