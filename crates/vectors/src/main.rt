// Replays the stored questions of each file of data/ and compares each answer with the stored one.
#![tactic(auto)]

mod clean_answers;
mod expression_answers;
mod image_answers;
mod name_answers;
mod overlap_answers;
mod records;

ghost use Rattle.std.specs.Prelude.{◌≤◌};

use clean_answers::CleanQuestion;
use expression_answers::ExpressionQuestion;
use image_answers::ImageQuestion;
use name_answers::NameQuestion;
use overlap_answers::OverlapQuestion;
use records::{Question, read_part};
use std::io::Read;
use std::rt::Files;
use std::{fs, io};
use streams::read_full;

// How many answers were asked, and which was the first that differed, from 1.
#[derive(Clone, Copy)]
struct Replayed {
    asked: u64,
    first_wrong: Option<u64>,
}

// Asks every record, at most a million of them.
fn replay<const N: usize, Q: Question<N>, R: Read>(file: &mut R) -> io::Result<Replayed>
    requires { N ≤ 18 }
{
    let mut head = [0u8; N];
    let mut img = [0u8; 65536];
    let mut output = [0u8; 65536];
    let mut report = [0u8; 65536];
    let mut before = 0;
    let mut done = Replayed {
        asked: 0,
        first_wrong: None,
    };
    for asked in 1..1000001 {
        if read_full(file, &mut head)? < N {
            return Ok(done);
        }
        done.asked = asked;
        let q = Q::read(&head);
        let [image, cleaned, text] = q.parts(before);
        before = read_part(file, &mut img, image)?;
        let o = read_part(file, &mut output, cleaned)?;
        let r = read_part(file, &mut report, text)?;
        if !q.is_answered(&mut img[..before], &output[..o], &report[..r]) {
            done.first_wrong = done.first_wrong.or(Some(asked));
        }
    }
    Ok(done)
}

// Replays the file of that name.
fn replay_file<const N: usize, Q: Question<N>>(
    rt: &(impl Files + Print),
    name: &str,
) -> io::Result<()>
    requires { N ≤ 18 }
{
    let mut file = fs::open(rt, name)?;
    let done = replay::<N, Q, _>(&mut file)?;
    let asked = done.asked;
    match done.first_wrong {
        None => println!(rt; "{name}: {asked} answers as stored"),
        Some(wrong) => {
            println!(rt; "{name}: {asked} answers, the first that differs is number {wrong}")
        }
    }
}

fn main(rt: HostRuntime) -> io::Result<()> {
    replay_file::<4, NameQuestion>(&rt, "names")?;
    replay_file::<8, ImageQuestion>(&rt, "image")?;
    replay_file::<12, OverlapQuestion>(&rt, "overlap")?;
    replay_file::<16, ExpressionQuestion>(&rt, "expression")?;
    replay_file::<18, CleanQuestion>(&rt, "clean")
}
