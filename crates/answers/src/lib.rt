// What the entry points answer, or a refusal: definitions, the page of demands, and the types of the answers.
#![tactic(auto)]

use patterns::Verdict;

// How long the cleaned image and the report are.
#[derive(Clone, Copy, Debug, PartialEq, Eq)]
pub struct Lengths {
    pub output: usize,
    pub report: usize,
}

// What Overlap says of two patterns: the verdict, and the entries spent by the outermost pair.
#[derive(Clone, Copy, Debug, PartialEq, Eq)]
pub struct Comparison {
    pub verdict: Verdict,
    pub spent: u32,
}

// The same, and the length of the expression that was written.
#[derive(Clone, Copy, Debug, PartialEq, Eq)]
pub struct Sharing {
    pub verdict: Verdict,
    pub spent: u32,
    pub length: usize,
}

// How a run ended, and how many bytes its events have.
#[derive(Clone, Copy, Debug, PartialEq, Eq)]
pub struct Ran {
    pub ending: u32,
    pub length: usize,
}
