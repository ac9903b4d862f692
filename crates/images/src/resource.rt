// Resource images.
ghost use Rattle.std.specs.Prelude.{◌≡◌};
ghost use Rattle.records.specs.Relations.Answer.{next_of};
ghost use Rattle.records.specs.Images.{resource_at, resource_of};

use crate::entry::check_entries;
use records::Head;

// A resource image at a position: u32 whole length, version 1, u16 entry count, entries.
pub(crate) fn check_resource_at(s: &[u8], at: usize) -> Option<usize>
    ensures { result ≡ next_of (resource_at s.now at) }
{
    let Head { size, count, from } = records::read_head(s, at)?;
    let e = check_entries(s, from, count)?;
    records::ends_at(at, size, e)
}

// A resource image that is all of its slice.
pub fn check_resource(s: &[u8]) -> Option<usize>
    ensures { result ≡ next_of (resource_of s.now) }
{
    let e = check_resource_at(s, 0)?;
    if e == s.len() { Some(e) } else { None }
}
