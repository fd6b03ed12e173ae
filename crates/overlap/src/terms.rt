// Terms of one pattern alone: how many there are.
// Marks stay numbers, as in `image::part`.
ghost use Rattle.std.specs.Prelude.{◌≤◌, length};
ghost use Rattle.program.specs.Limits.{Mode};
ghost use Rattle.image.specs.Parts.{TermsAt};

use image::part::term_len;

// How many terms stand before the close. What is known of it bounds the numbers that are made of it; no answer hangs on it.
pub fn count_terms(s: &[u8]) -> usize
    requires { TermsAt Mode.pattern s.now }
    ensures { result ≤ length s.now }
{
    let mut i: usize = 0;
    let mut n: usize = 0;
    loop {
        let x = &s[i..];
        if x[0] == 15 {
            return n;
        }
        i += term_len(x);
        n += 1;
    }
}
