// The first function of a name, by bucket lists of the functions.
ghost use Rattle.std.specs.Prelude.{◌≡◌, List, ℕ, ◌+◌, ◌%◌, ◌<◌, ◌≤◌, length, get_or, drop};
ghost use Rattle.program.specs.Syntax.{Function};
ghost use Rattle.image.specs.Parts.{FunctionAt};
ghost use Rattle.index.specs.First.{FirstFrom};
ghost use Rattle.index.specs.Tables.{Apart};
ghost use Rattle.index.specs.Bucket.{bucket_of, is_named};
ghost use Rattle.index.specs.Tabled.{Tabled, SomeTabled, FiledAs, SomeFiled};

use crate::table::place_of;
use image::part::name_part;
use symbols::{same_name, small};

// The bucket of a name, of n buckets.
fn bucket_of(name: &[u8], n: usize) -> usize
    requires { 0 < n }
    ensures { (result ≡ bucket_of n name.now) × (result < n) }
{
    let mut h: usize = 0;
    for c in name {
        h = (h * 31 + usize::from(small(*c))) % 65536;
    }
    h % n
}

// The name of the function that stands at p, as a part of the body b.
pub fn function_name(b: &[u8], p: usize) -> &[u8]
    requires { FunctionAt (drop p b.now) }
    ensures { (x : FunctionAt (drop p b.now)) → result.now ≡ x.function.name }
{
    let at = p + 10;
    name_part(&b[at..])
}

// Where so many functions are filed: their links stand at `at`, one a function, and so many buckets behind them.
#[derive(Clone, Copy)]
pub struct Filing {
    pub functions: usize,
    pub at: usize,
    pub buckets: usize,
}

impl Filing {
    // Files the functions, the last first, so that each bucket's list rises; all buckets are empty.
    pub fn file_functions(self, b: &[u8], work: &mut [u32])
        requires { SomeTabled b.now work.old self.functions × (self.functions ≤ self.at) × (self.at + self.functions + self.buckets ≤ length work.old) × (length work.old ≤ 32768) × (0 < self.buckets) × ((k : ℕ) → k < self.buckets → get_or work.old (self.at + self.functions + k) 0 ≡ self.functions) }
        ensures filed { (fs : List Function) → Tabled b.now work.old self.functions fs → FiledAs fs work.new self }
        ensures others { Apart work.old work.new self.at (self.at + self.functions + self.buckets) }
    {
        for f in (0..self.functions).rev() {
            let p = place_of(work, f);
            let k = self.at + self.functions + bucket_of(function_name(b, p), self.buckets);
            let l = self.at + f;
            work[l] = work[k];
            work[k] = f as u32;
        }
    }

    // The first function of that name, if there is one.
    pub fn function_named(self, b: &[u8], work: &[u32], name: &[u8]) -> Option<usize>
        requires { SomeFiled b.now work.now self × (length work.now ≤ 32768) }
        ensures { (fs : List Function) → Tabled b.now work.now self.functions fs → FiledAs fs work.now self → FirstFrom (is_named name.now) 0 fs result }
    {
        let k = self.at + self.functions + bucket_of(name, self.buckets);
        let mut f = work[k] as usize;
        // A list in the lent entries, where the count of functions ends it: fixed memory.
        while f < self.functions {
            let p = place_of(work, f);
            if same_name(function_name(b, p), name) {
                return Some(f);
            }
            let l = self.at + f;
            f = work[l] as usize;
        }
        None
    }
}
