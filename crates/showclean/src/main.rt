// Reads an image from standard input, cleans it, and prints the report of the cleaning.
#![tactic(auto)]

use std::io;
use std::io::Input;
use streams::read_full;

// An image of at most 8,192 bytes needs no more output and no more entries of work than these.
fn print_cleaned(rt: &impl Print, img: &[u8]) -> io::Result<()> {
    let mut output = [0u8; 8192];
    let mut work = [0u32; 2048];
    let mut report = [0u8; 32768];
    match cleaner::clean(img, &mut output, &mut work, &mut report) {
        Ok(lengths) => {
            let n = lengths.report.min(report.len());
            rt.write_all(&report[..n])
        }
        Err(f) => println!(rt; "{f}"),
    }
}

// One byte more than an image may have is read, to tell that there are more.
fn main(rt: HostRuntime) -> io::Result<()> {
    let mut buf = [0u8; 8193];
    let n = read_full(&mut rt.reader(), &mut buf)?;
    if n > 8192 {
        println!(rt; "too long")
    } else {
        print_cleaned(&rt, &buf[..n])
    }
}
