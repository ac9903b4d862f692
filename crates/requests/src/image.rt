// Sheet images: checking them. Of an arguments image only the length is judged.
ghost use Rattle.std.specs.Prelude.{◌≡◌, [], ◌∷◌};
ghost use Rattle.records.specs.Relations.Answer.{next_of};
ghost use Rattle.records.specs.Decode.{many};
ghost use Rattle.requests.specs.Image.{arguments_bytes_at, request_at, sheet_at, sheet_of};

use crate::{MAX_SHEET, MIN_ARGUMENTS};
use records::MAX_IMAGE;

// The bytes of an arguments image: as many as its first four state, 7 to 65,536.
fn check_arguments_bytes(s: &[u8], at: usize) -> Option<usize>
    ensures { result ≡ next_of (arguments_bytes_at s.now at) }
{
    let (n, _) = records::read_u32(s, at)?;
    if n < MIN_ARGUMENTS {
        return None;
    }
    if MAX_IMAGE < n {
        return None;
    }
    records::skip_bytes(s, at, n)
}

// A request: message Id, attribute Flag (and Id), arguments image.
fn check_request(s: &[u8], at: usize) -> Option<usize>
    ensures { result ≡ next_of (request_at s.now at) }
{
    let p = records::check_id(s, at)?;
    let q = records::check_optional_id(s, p)?;
    check_arguments_bytes(s, q)
}

// `count` requests.
fn check_requests(s: &[u8], from: usize, count: usize) -> Option<usize>
    ensures { result ≡ next_of (many [] ◌∷◌ count request_at s.now from) }
{
    let mut at = from;
    for _ in 0..count {
        at = check_request(s, at)?;
    }
    Some(at)
}

// A sheet image at a position: u32 whole length, version 1, u16 count, the requests.
fn check_sheet_at(s: &[u8], at: usize) -> Option<usize>
    ensures { result ≡ next_of (sheet_at s.now at) }
{
    let (n, p) = records::read_u32(s, at)?;
    if MAX_SHEET < n {
        return None;
    }
    let q = records::check_one(s, p)?;
    let (count, from) = records::read_u16(s, q)?;
    let e = check_requests(s, from, count)?;
    records::ends_at(at, n, e)
}

// A sheet image that is all of its slice.
pub fn check_sheet(s: &[u8]) -> Option<usize>
    ensures { result ≡ next_of (sheet_of s.now) }
{
    let e = check_sheet_at(s, 0)?;
    if e == s.len() { Some(e) } else { None }
}
