// Cleans the image of each example of data/, compares the report with the stored one, and the image with the text.
#![tactic(auto)]

mod notation_text;

ghost use Rattle.std.specs.Prelude.{IfOk};
ghost use Rattle.streams.specs.Counts.{IsPrefixLen};

use std::io::ErrorKind;
use std::rt::Files;
use std::{fs, io};
use streams::read_full;

// Reads the file of that name into buf: its length, 0 where there is no such file, as a show's report is not stored at first; the
// callers take an empty text then, and would only make one of an Option.
fn read_file(rt: &impl Files, name: &str, buf: &mut [u8]) -> io::Result<usize>
    ensures { IfOk result (λ n. IsPrefixLen n buf.new) }
{
    match fs::open(rt, name) {
        Ok(mut file) => read_full(&mut file, buf),
        Err(e) if e.kind() == ErrorKind::NotFound => Ok(0),
        Err(e) => Err(e),
    }
}

// A report that differs is printed, so that a reader of the test sees how.
fn print_compared(rt: &impl Print, report: &[u8], stored: &[u8]) -> io::Result<()> {
    if report == stored {
        println!(rt; ": report as stored")
    } else {
        println!(rt; ": report differs")?;
        rt.write_all(report)
    }
}

// Any image is lent enough output and work, and as much report as showclean lends.
fn clean_and_compare(rt: &impl Print, img: &[u8], stored: &[u8]) -> io::Result<()> {
    let mut output = [0u8; 65536];
    let mut work = [0u32; 8192];
    let mut report = [0u8; 32768];
    match cleaner::clean(img, &mut output, &mut work, &mut report) {
        Ok(lengths) => {
            let n = lengths.report.min(report.len());
            print_compared(rt, &report[..n], stored)
        }
        Err(f) => println!(rt; ": {f}"),
    }
}

// The body of an image is all but its trailer.
fn print_spelled(rt: &impl Print, img: &[u8], text: &[u8]) -> io::Result<()> {
    let n = img.len().saturating_sub(12);
    if notation_text::is_spelled(&img[..n], text) {
        println!(rt; ": text as in the image")
    } else {
        println!(rt; ": text differs from the image")
    }
}

fn replay(
    rt: &(impl Files + Print),
    name: &str,
    image_name: &str,
    report_name: &str,
    text_name: &str,
) -> io::Result<()> {
    let mut img = [0u8; 65536];
    let mut other = [0u8; 65536];
    let n = read_file(rt, image_name, &mut img)?;
    let k = read_file(rt, report_name, &mut other)?;
    rt.print(name)?;
    clean_and_compare(rt, &img[..n], &other[..k])?;
    let l = read_file(rt, text_name, &mut other)?;
    rt.print(name)?;
    print_spelled(rt, &img[..n], &other[..l])
}

// Each example with its image, report and text, in the order of data/README.md.
const EXAMPLES: [[&str; 4]; 6] = [
    ["worked", "worked.image", "worked.report", "worked.ref"],
    ["removed", "removed.image", "removed.report", "removed.ref"],
    ["cascade", "cascade.image", "cascade.report", "cascade.ref"],
    [
        "undecided",
        "undecided.image",
        "undecided.report",
        "undecided.ref",
    ],
    [
        "uncovered",
        "uncovered.image",
        "uncovered.report",
        "uncovered.ref",
    ],
    [
        "dispatch",
        "dispatch.image",
        "dispatch.report",
        "dispatch.ref",
    ],
];

fn main(rt: HostRuntime) -> io::Result<()> {
    for [name, image_name, report_name, text_name] in EXAMPLES {
        replay(&rt, name, image_name, report_name, text_name)?;
    }
    Ok(())
}
