// Clean's answers: data/clean, which tools/clean_vectors.py writes, has a record for each, and that
// script says how a record is laid out.
use crate::records::{LENT_BYTE, LENT_ENTRY, Part, Question, image_part, is_written, pair};
use answers::Lengths;
use program::Refusal;

// A record: the length of the image that follows (0: the image before stays), the lent lengths, the
// answer (none, where a field that the stored one does not use is not 0), and its cleaned image and report.
#[derive(Clone, Copy)]
pub struct CleanQuestion {
    len: usize,
    output: usize,
    work: usize,
    report: usize,
    cleaned: Part,
    text: Part,
    expected: Option<Result<Lengths, Refusal>>,
}

// What the entries of work hold after an answer: zero where the image was cleaned, also if the
// report was then too long.
fn entry_after(answer: Result<Lengths, Refusal>) -> u32 {
    match answer {
        Ok(_) | Err(Refusal { number: 12, .. }) => 0,
        Err(_) => LENT_ENTRY,
    }
}

// Whether the entries that were lent are as they should be after an answer, and the others as before.
fn is_work_left(lent: &[u32], rest: &[u32], answer: Result<Lengths, Refusal>) -> bool {
    let entry = entry_after(answer);
    lent.iter().all(|x| *x == entry) && rest.iter().all(|x| *x == LENT_ENTRY)
}

// Whether cleaning a cleaned image gives it back: "Touring desks clean a show again at each load."
fn is_kept_again(cleaned: &[u8]) -> bool {
    let mut output = [LENT_BYTE; 33024];
    let mut work = [LENT_ENTRY; 8256];
    let mut report = [LENT_BYTE; 65536];
    match cleaner::clean(cleaned, &mut output, &mut work, &mut report) {
        Ok(n) => n.output == cleaned.len() && is_written(cleaned, &output),
        Err(_) => false,
    }
}

impl Question<18> for CleanQuestion {
    fn read(head: &[u8; 18]) -> CleanQuestion {
        // The length of a report that no question lends can be a large one.
        let place = u32::from_le_bytes([head[10], head[11], head[12], head[13]]) as usize;
        let output = pair(head[14], head[15]);
        let report = pair(head[16], head[17]);
        let (cleaned, text) = match head[9] {
            1 => (Part::Follows(output), Part::Follows(report)),
            _ => (Part::Stays(output), Part::Stays(report)),
        };
        let expected = match (head[8], place, output, report) {
            (0, 0, _, _) => Some(Ok(Lengths { output, report })),
            (number, _, 0, 0) => Some(Refusal::at(number, place)),
            _ => None,
        };
        CleanQuestion {
            len: pair(head[0], head[1]),
            output: pair(head[2], head[3]),
            work: pair(head[4], head[5]),
            report: pair(head[6], head[7]),
            cleaned,
            text,
            expected,
        }
    }

    fn parts(&self, before: usize) -> [Part; 3] {
        [image_part(self.len, before), self.cleaned, self.text]
    }

    // Whether the answer is the stored one, and the cleaned image, the report and work are left so.
    fn is_answered(&self, img: &mut [u8], cleaned: &[u8], text: &[u8]) -> bool {
        let mut output = [LENT_BYTE; 33024];
        let mut work = [LENT_ENTRY; 8256];
        let mut report = [LENT_BYTE; 65536];
        let o = self.output.min(output.len());
        let w = self.work.min(work.len());
        let r = self.report.min(report.len());
        let answer = cleaner::clean(img, &mut output[..o], &mut work[..w], &mut report[..r]);
        Some(answer) == self.expected
            && is_work_left(&work[..w], &work[w..], answer)
            && is_written(cleaned, &output)
            && is_written(text, &report)
            && (answer.is_err() || is_kept_again(cleaned))
    }
}
