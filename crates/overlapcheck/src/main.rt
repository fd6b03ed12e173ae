// Reads an image from standard input and compares the patterns of its first two sentences, or of its
// first with itself where it has only one.
#![tactic(auto)]

use std::io;
use std::io::Input;
use streams::read_full;

fn main(rt: HostRuntime) -> io::Result<()> {
    let mut buf = [0u8; 65536];
    let n = read_full(&mut rt.reader(), &mut buf)?;
    let img = &buf[..n];
    match cleaner::overlap(img, 0, 1).or_else(|_| cleaner::overlap(img, 0, 0)) {
        Ok(c) => println!(rt; "{}, spent {}", c.verdict, c.spent),
        Err(f) => println!(rt; "{f}"),
    }
}
