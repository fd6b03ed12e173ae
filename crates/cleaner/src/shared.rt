// An expression that matches the patterns of two sentences.
ghost use Rattle.std.specs.Prelude.{◌≡◌, ◌≤◌, length};
ghost use Rattle.answers.specs.ExpressionAnswers.{share_patterns};
ghost use Rattle.cleaner.specs.Parts.{PatternFrom};
ghost use Rattle.cleaner.specs.Shared.{leaving};

use answers::Sharing;
use expression::put_meeting;
use overlap::sequence_overlap;
use patterns::Verdict;
use program::Refusal;

// The sentences at i and j of a body b, by their patterns. The length is counted before a byte is written, since a refusal
// writes nothing.
pub fn share(b: &[u8], i: usize, j: usize, out: &mut [u8]) -> Result<Sharing, Refusal>
    requires { PatternFrom b.now i × PatternFrom b.now j × (length b.now ≤ 32768) }
    ensures { (x : PatternFrom b.now i) (y : PatternFrom b.now j) → leaving result out.new ≡ share_patterns x.terms y.terms out.old }
{
    let p = i + 9;
    let q = j + 9;
    let mut room = [0u32; 9920];
    let f = sequence_overlap(b, p, q, 4096, &mut room);
    let verdict = f.verdict;
    let spent = 4096 - f.fuel;
    if verdict != Verdict::Overlap {
        return Ok(Sharing {
            verdict,
            spent,
            length: 0,
        });
    }
    let length = put_meeting(b, p, q, &mut out[..0], &mut room);
    if out.len() < length {
        return Refusal::at(17, 0);
    }
    put_meeting(b, p, q, out, &mut room);
    Ok(Sharing {
        verdict,
        spent,
        length,
    })
}
