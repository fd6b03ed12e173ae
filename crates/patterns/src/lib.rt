// Symbols, patterns, and whether one expression can match two of them: definitions and theorems, and the types that code shares with them.
#![tactic(auto)]

use std::fmt;

// The answer to whether one expression can match two patterns.
#[derive(Clone, Copy, Debug, PartialEq, Eq)]
pub enum Verdict {
    Disjoint,
    Overlap,
    Unknown,
}

impl fmt::Display for Verdict {
    ghost use Rattle.std.specs.Prelude.{Some};
    ghost use Rattle.patterns.specs.Words.{verdict_word};

    ghost output = { λ v. Some (verdict_word v) };

    fn fmt<W: fmt::Write>(&self, f: &mut fmt::Formatter<W>) -> fmt::Result {
        f.write_str(match self {
            Verdict::Disjoint => "disjoint",
            Verdict::Overlap => "overlap",
            Verdict::Unknown => "unknown",
        })
    }
}

// A verdict, with the fuel that is left.
#[derive(Clone, Copy, Debug, PartialEq, Eq)]
pub struct Found {
    pub verdict: Verdict,
    pub fuel: u32,
}

// What comparing two names says: whether they are the same, and how many pairs of bytes were compared.
#[derive(Clone, Copy, Debug, PartialEq, Eq)]
pub struct NameComparison {
    pub equal: bool,
    pub compared: usize,
}
