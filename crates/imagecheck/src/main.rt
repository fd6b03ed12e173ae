// Reads an image from standard input and says whether it is accepted, or why it is refused.
#![tactic(auto)]

use reader::check::check;
use std::io;
use std::io::Input;
use streams::read_full;

fn main(rt: HostRuntime) -> io::Result<()> {
    let mut buf = [0u8; 65536];
    let n = read_full(&mut rt.reader(), &mut buf)?;
    match check(&buf[..n]) {
        Err(f) => println!(rt; "{f}"),
        Ok(()) => println!(rt; "accepted"),
    }
}
