// Overlap's answers: data/overlap, which tools/overlap_vectors.py writes, has a record for each, and
// that script says how a record is laid out.
use crate::records::{NO_PART, Part, Question, image_part, pair};
use answers::Comparison;
use patterns::Verdict;
use program::Refusal;

// A record: the length of the image that follows (0: the image before stays), the two sentence
// numbers, and the answer: none, where a field that the stored one does not use is not 0, or its
// verdict stands for nothing, since no answer is that.
#[derive(Clone, Copy)]
pub struct OverlapQuestion {
    len: usize,
    first: usize,
    second: usize,
    expected: Option<Result<Comparison, Refusal>>,
}

// A verdict as stored: they are numbered in document 01's order.
pub fn stored_verdict(number: u8) -> Option<Verdict> {
    match number {
        0 => Some(Verdict::Disjoint),
        1 => Some(Verdict::Overlap),
        2 => Some(Verdict::Unknown),
        _ => None,
    }
}

// A sentence number as stored: 65535 stands for the largest that a caller can give.
pub fn sentence_number(stored: usize) -> usize {
    if stored == 65535 { usize::MAX } else { stored }
}

impl Question<12> for OverlapQuestion {
    fn read(head: &[u8; 12]) -> OverlapQuestion {
        let spent = pair(head[8], head[9]) as u32;
        let place = pair(head[10], head[11]);
        let expected = match (head[6], head[7], spent, place) {
            (0, number, _, 0) => {
                stored_verdict(number).map(|verdict| Ok(Comparison { verdict, spent }))
            }
            (number, 0, 0, _) => Some(Refusal::at(number, place)),
            _ => None,
        };
        OverlapQuestion {
            len: pair(head[0], head[1]),
            first: sentence_number(pair(head[2], head[3])),
            second: sentence_number(pair(head[4], head[5])),
            expected,
        }
    }

    fn parts(&self, before: usize) -> [Part; 3] {
        [image_part(self.len, before), NO_PART, NO_PART]
    }

    fn is_answered(&self, img: &mut [u8], _output: &[u8], _report: &[u8]) -> bool {
        Some(cleaner::overlap(img, self.first, self.second)) == self.expected
    }
}
