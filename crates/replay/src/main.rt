// Replays the oracle's vectors of numbers, of stores and images, and of additions: every case is compared, and the counts are printed. Then the limit
// of a store, which is too long for a vector.
#![tactic(auto)]

mod addition_cases;
mod image_cases;
mod limit;
mod number_cases;
mod number_fields;
mod report;

use report::{Report, Row};
use std::fs::File;
use std::io;
use std::rt::Files;
use vectors::{case_count, next_case};

// Replays a file, whose categories have a row. One that cannot be opened is named, and counts nothing. It stands here and, with other counts, in
// replay_formats: of a file that is opened no contract says anything, and each public function of a library has a whole one.
fn replay<R: Files + Eprint>(
    rt: &R,
    report: &mut Report,
    name: &str,
    categories: Row,
) -> io::Result<()> {
    let mut file = match File::open(rt, name) {
        Ok(file) => file,
        Err(error) => return eprintln!(rt; "{name}: {error}"),
    };
    let mut buffer = [0; 65536];
    for _ in 0..case_count(&mut file)? {
        report.replay(next_case(&mut file, &mut buffer)?, categories);
    }
    Ok(())
}

fn main(rt: HostRuntime) -> io::Result<()> {
    let mut report = Report::new();
    replay(&rt, &mut report, "numbers.vec", Row::Categories)?;
    replay(&rt, &mut report, "categories.vec", Row::TableCategories)?;
    replay(&rt, &mut report, "images.vec", Row::Categories)?;
    replay(&rt, &mut report, "additions.vec", Row::Categories)?;
    replay(&rt, &mut report, "figure_additions.vec", Row::Categories)?;
    report.show(&rt)?;
    let differ = limit::limit();
    println!(rt; "{differ} differ at the limit of a store")
}
