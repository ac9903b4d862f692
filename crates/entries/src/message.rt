// The parts of an entry: its value, and its attributes by name.
ghost use Rattle.std.specs.Prelude.{◌≡◌};
ghost use Rattle.records.specs.Names.{first_named};
ghost use Rattle.entries.specs.Outline.{readable, attribute_head, attribute_outline, attributes_in, value_in, position_of, part_in};
ghost use Rattle.entries.specs.Relations.Meets.{at_position};
ghost use Rattle.records.specs.Optional.{lent};

use crate::resource::{read_str_behind, skip_value};
use decimals::bytes::same_bytes;
use records::{read_byte, read_str, read_u16};
use walks::skip_pattern;

// The pattern of an entry's value.
pub(crate) fn find_value(s: &[u8], at: usize) -> Option<usize>
    ensures { result ≡ at_position (position_of (value_in s.now at)) }
{
    let (_, e) = read_str_behind(s, at, 1)?;
    let (flag, p) = read_byte(s, e)?;
    if flag == 0 {
        return None;
    }
    Some(p)
}

// The pattern of the first of `count` attributes that has the name.
pub(crate) fn find_named(s: &[u8], from: usize, count: usize, name: &[u8]) -> Option<usize>
    ensures { result ≡ at_position (first_named name.now (readable count attribute_head attribute_outline s.now from)) }
{
    let mut at = from;
    for _ in 0..count {
        let (a, e) = read_str(s, at)?;
        if same_bytes(&s[a..e], name) {
            return Some(e);
        }
        at = skip_pattern(s, e)?;
    }
    None
}

// The pattern of an entry's first attribute of a name.
pub(crate) fn find_attribute(s: &[u8], at: usize, name: &[u8]) -> Option<usize>
    ensures { result ≡ at_position (first_named name.now (attributes_in s.now at)) }
{
    let (_, e) = read_str_behind(s, at, 1)?;
    let p = skip_value(s, e)?;
    let (count, start) = read_u16(s, p)?;
    find_named(s, start, count, name)
}

// The pattern that is asked for: of an attribute, or of the value.
pub fn find_part(s: &[u8], at: usize, attribute: Option<&[u8]>) -> Option<usize>
    ensures { result ≡ at_position (part_in (lent attribute.entry) s.now at) }
{
    match attribute {
        Some(name) => find_attribute(s, at, name),
        None => find_value(s, at),
    }
}
