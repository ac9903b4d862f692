// Replays the oracle's vectors of formattings, of one message and of a sheet: the answer, every count and every byte of text, list and workspace, for the
// buffers that a case lends and, of a formatting that finishes, for ample, just fitting and short ones, and for a workspace of its figure and one byte less;
// and prints the counts. Then the longest arguments image, and sheets too long for a vector.
#![tactic(auto)]

mod cases;
mod fields;
mod limit;
mod report;
mod sheet_limit;

use report::Report;
use std::fs::File;
use std::io;
use std::rt::Files;
use vectors::{case_count, next_case};

// Replays a file, and prints its counts. One that cannot be opened is named, and has none. It stands here and, with other counts, in replay: of a file that is
// opened no contract says anything, and each public function of a library has a whole one.
fn replay<R: Files + Print + Eprint>(rt: &R, name: &str, formattings: &str) -> io::Result<()> {
    let mut file = match File::open(rt, name) {
        Ok(file) => file,
        Err(error) => return eprintln!(rt; "{name}: {error}"),
    };
    println!(rt; "{name}:")?;
    let mut report = Report::new();
    let mut buffer = [0; 65536];
    for _ in 0..case_count(&mut file)? {
        report.replay(next_case(&mut file, &mut buffer)?);
    }
    report.show(rt, formattings)
}

fn main(rt: HostRuntime) -> io::Result<()> {
    for (name, formattings) in [
        ("formats.vec", "formattings"),
        ("sentences.vec", "formattings"),
        ("sheets.vec", "sheets"),
        ("figures.vec", "formattings and sheets by their figures"),
        (
            "nesting.vec",
            "formattings and sheets by their isolation marks",
        ),
        (
            "arguments.vec",
            "formattings and sheets by the order of their arguments",
        ),
        (
            "fractions.vec",
            "formattings and sheets by their fraction digits",
        ),
    ] {
        replay(&rt, name, formattings)?;
    }
    let differ = limit::limit();
    println!(rt; "{differ} differ at the longest arguments image")?;
    let report = sheet_limit::limits();
    let (sheets, differ) = (report.as_lent(), report.differ());
    println!(rt; "{sheets} sheets too long for a vector, {differ} differ")
}
