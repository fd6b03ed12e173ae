// Rounds over the entries of work. Work is changed here and goes beside its plan and the body: of a struct that lends it each call
// would have to promise that the others stay, and what is known of it changes from step to step.
#![tactic(auto)]

pub mod prepare;
pub mod root;
pub mod rounds;
pub mod verdict;
pub mod walks;
