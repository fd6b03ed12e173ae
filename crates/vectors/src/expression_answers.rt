// The answers of Overlap with an expression: data/expression, which tools/expression_vectors.py writes, has a record for each,
// and that script says how a record is laid out.
use crate::overlap_answers::{sentence_number, stored_verdict};
use crate::records::{LENT_BYTE, NO_PART, Part, Question, image_part, is_written, pair};
use answers::Sharing;
use program::Refusal;

// A record: the length of the image that follows (0: the image before stays), the two sentence
// numbers, the length of the lent slice, how many bytes of an expression follow, and the answer: none,
// where a field that the stored one does not use is not 0, or its verdict stands for nothing.
#[derive(Clone, Copy)]
pub struct ExpressionQuestion {
    len: usize,
    first: usize,
    second: usize,
    lent: usize,
    length: usize,
    expected: Option<Result<Sharing, Refusal>>,
}

impl Question<16> for ExpressionQuestion {
    fn read(head: &[u8; 16]) -> ExpressionQuestion {
        let spent = pair(head[10], head[11]) as u32;
        let place = pair(head[12], head[13]);
        let length = pair(head[14], head[15]);
        let expected = match (head[8], head[9], spent, place, length) {
            (0, number, _, 0, _) => stored_verdict(number).map(|verdict| {
                Ok(Sharing {
                    verdict,
                    spent,
                    length,
                })
            }),
            (number, 0, 0, _, 0) => Some(Refusal::at(number, place)),
            _ => None,
        };
        ExpressionQuestion {
            len: pair(head[0], head[1]),
            first: sentence_number(pair(head[2], head[3])),
            second: sentence_number(pair(head[4], head[5])),
            lent: pair(head[6], head[7]),
            length,
            expected,
        }
    }

    fn parts(&self, before: usize) -> [Part; 3] {
        [
            image_part(self.len, before),
            Part::Follows(self.length),
            NO_PART,
        ]
    }

    // Nothing but the expression may be written.
    fn is_answered(&self, img: &mut [u8], text: &[u8], _report: &[u8]) -> bool {
        let mut lent = [LENT_BYTE; 40960];
        let n = self.lent.min(lent.len());
        let answer = cleaner::overlap_expression(img, self.first, self.second, &mut lent[..n]);
        Some(answer) == self.expected && is_written(text, &lent)
    }
}
