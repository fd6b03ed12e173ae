// The comparison of names: data/names, which tools/name_vectors.py writes, has a record for each pair,
// and that script says how a record is laid out.
use crate::records::{NO_PART, Part, Question};
use patterns::NameComparison;

// A record: the lengths of the two names, which follow, and the answer.
#[derive(Clone, Copy)]
pub struct NameQuestion {
    first: usize,
    second: usize,
    expected: NameComparison,
}

impl Question<4> for NameQuestion {
    fn read(head: &[u8; 4]) -> NameQuestion {
        let equal = head[2] == 1;
        let compared = usize::from(head[3]);
        NameQuestion {
            first: usize::from(head[0]),
            second: usize::from(head[1]),
            expected: NameComparison { equal, compared },
        }
    }

    fn parts(&self, _before: usize) -> [Part; 3] {
        [
            Part::Follows(self.first),
            Part::Follows(self.second),
            NO_PART,
        ]
    }

    fn is_answered(&self, first: &mut [u8], second: &[u8], _report: &[u8]) -> bool {
        symbols::compare_names(first, second) == self.expected
    }
}
