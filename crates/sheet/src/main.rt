// Prints the sheet of a sighting in English, Danish, Russian and Welsh: the sentences of sheets/*.ftl through the proved library. The command that takes
// options is rust/cli; this program needs nothing but `rt`, and runs unproved too: `rt try` in this folder.
#![tactic(auto)]

mod embedded;

use refusals::Refusal;
use sheet_format::format_sheet;
use std::io;
use std::io::Write;

fn print(rt: &impl Print, s: &[u8]) -> io::Result<()> {
    io::writer(rt).write_all(s)
}

// Room for a store, a text, a list or a workspace.
fn buffer() -> [u8; 4096] {
    [0; 4096]
}

// Says that an operation was refused.
fn print_refusal(rt: &impl Print, number: u8) -> io::Result<()> {
    println!(rt; "refusal {number}")
}

// Prints a text, which ends at a position, and ends its line.
fn print_text(rt: &impl Print, text: &[u8], end: usize) -> io::Result<()> {
    let Some(text) = text.get(..end) else {
        return Ok(());
    };
    print(rt, text)?;
    print(rt, b"\n")
}

// Formats the sheet of the sighting in one call, and prints it.
fn print_sheet(rt: &impl Print, store: &[u8]) -> io::Result<()> {
    let mut text = buffer();
    let mut list = buffer();
    let mut work = buffer();
    match format_sheet(store, &embedded::SHEET, &mut text, &mut list, &mut work) {
        Ok(figures) => print_text(rt, &text, figures.text),
        Err(failure) => print_refusal(rt, failure.number()),
    }
}

// The bundle of a language: NUMBER, and its sentences.
fn make(store: &mut [u8], locale: u8, image: &[u8]) -> Result<usize, Refusal> {
    bundle::new(store, locale, 0)?;
    bundle::add_function(store, b"NUMBER", 1)?;
    bundle::add_resource(store, image, &mut buffer())
}

// Prints the sheet of a language.
fn print_language(rt: &impl Print, locale: u8, image: &[u8]) -> io::Result<()> {
    let mut store = buffer();
    match make(&mut store, locale, image) {
        Ok(_) => print_sheet(rt, &store),
        Err(refusal) => print_refusal(rt, refusal.number()),
    }
}

fn main(rt: HostRuntime) -> io::Result<()> {
    print_language(&rt, 0, &embedded::EN)?;
    print(&rt, b"\n")?;
    print_language(&rt, 1, &embedded::DA)?;
    print(&rt, b"\n")?;
    print_language(&rt, 2, &embedded::RU)?;
    print(&rt, b"\n")?;
    print_language(&rt, 3, &embedded::CY)
}
