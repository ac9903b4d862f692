// Makes a store of 1,044,825 bytes and checks it 1,000 times; tools/bench-store times it. Sixteen resource images, each one message of 960 texts of 60
// bytes and 960 variables: eight images of ASCII text, then eight of Cyrillic.
#![tactic(auto)]

use buffers::{NoRoom, put_bytes};
use images::check_store;
use std::io;

// 960 texts and variables from a position on, and the position past them.
fn put_elements(d: &mut [u8], from: usize, text: &[u8]) -> Result<usize, NoRoom> {
    let mut at = from;
    for _ in 0..960 {
        at = put_bytes(d, at, b"\x01\x00\x3C")?;
        at = put_bytes(d, at, text)?;
        at = put_bytes(d, at, b"\x02\x06\x00\x01n")?;
    }
    Ok(at)
}

// Eight items: a plain resource of one message `m` each.
fn put_items(d: &mut [u8], from: usize, text: &[u8]) -> Result<usize, NoRoom> {
    let mut at = from;
    for _ in 0..8 {
        at = put_bytes(d, at, b"\x01\x00\x00\xFF\x14\x01\x00\x01")?;
        at = put_bytes(d, at, b"\x01\x00\x01m\x01\x00\x00\xFF\x02\x07\x80")?;
        at = put_elements(d, at, text)?;
        at = put_bytes(d, at, b"\x00\x00")?;
    }
    Ok(at)
}

fn make_store(d: &mut [u8]) -> Result<usize, NoRoom> {
    let at = put_bytes(d, 0, b"\x00\x0F\xF1\x59\x01\x00\x01\x00\x10")?;
    let at = put_items(
        d,
        at,
        b"Two harbour porpoises and one calf were seen at leg seven...",
    )?;
    put_items(
        d,
        at,
        b"\xD0\x94\xD0\xB2\xD0\xB5 \xD0\xBC\xD0\xBE\xD1\x80\xD1\x81\xD0\xBA\xD0\xB8\xD0\xB5 \xD1\x81\xD0\xB2\xD0\xB8\xD0\xBD\xD1\x8C\xD0\xB8 \xD0\xB8 \xD0\xB4\xD0\xB5\xD1\x82\xD1\x91\xD0\xBD\xD1\x8B\xD1\x88 7......",
    )
}

// How many of so many checks find the store well-formed.
fn count_checks(s: &[u8], times: usize) -> usize {
    (0..times).filter(|_| check_store(s).is_some()).count()
}

// The largest store, and no byte past it.
fn room() -> [u8; 1048576] {
    [0; 1048576]
}

fn main(rt: HostRuntime) -> io::Result<()> {
    let mut store = room();
    let Ok(n) = make_store(&mut store) else {
        return println!(rt; "the store has no room");
    };
    let well_formed = count_checks(&store, 1000);
    println!(rt; "{n} bytes, well-formed {well_formed} times of 1000")
}
