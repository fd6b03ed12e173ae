// The image reader's answers: data/image, which tools/image_vectors.py writes, has a record for each,
// and that script says how a record is laid out.
use crate::records::{NO_PART, Part, Question, image_part, pair};
use program::Refusal;
use reader::check::check;

// A record: the length of the image that follows (0: the image before stays), one byte to change for
// this question alone, and the answer.
#[derive(Clone, Copy)]
pub struct ImageQuestion {
    len: usize,
    position: usize,
    value: u8,
    expected: Result<(), Refusal>,
}

impl Question<8> for ImageQuestion {
    fn read(head: &[u8; 8]) -> ImageQuestion {
        let expected = match (head[5], pair(head[6], head[7])) {
            (0, 0) => Ok(()),
            (number, place) => Refusal::at(number, place),
        };
        ImageQuestion {
            len: pair(head[0], head[1]),
            position: pair(head[2], head[3]),
            value: head[4],
            expected,
        }
    }

    fn parts(&self, before: usize) -> [Part; 3] {
        [image_part(self.len, before), NO_PART, NO_PART]
    }

    fn is_answered(&self, img: &mut [u8], _output: &[u8], _report: &[u8]) -> bool {
        let p = self.position;
        if p >= img.len() {
            return check(img) == self.expected;
        }
        let old = img[p];
        img[p] = self.value;
        let ok = check(img) == self.expected;
        img[p] = old;
        ok
    }
}
