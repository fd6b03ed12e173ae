// Programs and their images: definitions and theorems, and the type that code shares with them.
#![tactic(auto)]

use std::fmt;

// A refusal by document 01's number, and its place. The number stays one: callers in C are handed it, and the definitions order
// refusals by it.
#[derive(Clone, Copy, Debug, PartialEq, Eq)]
pub struct Refusal {
    pub number: u8,
    pub place: usize,
}

impl Refusal {
    ghost use Rattle.std.specs.Prelude.{◌≡◌, Err};

    // The answer of that number, at that place, of any function that may refuse.
    pub fn at<T>(number: u8, place: usize) -> Result<T, Refusal>
        ensures { result ≡ Err (record { number = number; place = place }) }
    {
        Err(Refusal { number, place })
    }
}

impl fmt::Display for Refusal {
    ghost use Rattle.std.specs.Prelude.{Some, codes, ◌++◌};
    ghost use Rattle.std.specs.Fmt.{decimal};

    ghost output = { λ f. Some (codes "refused " ++ decimal f.number ++ codes " at " ++ decimal f.place) };

    fn fmt<W: fmt::Write>(&self, f: &mut fmt::Formatter<W>) -> fmt::Result {
        let number = self.number;
        let place = self.place;
        write!(f, "refused {number} at {place}")
    }
}
