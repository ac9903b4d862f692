// Finding an argument, by the lengths that stand in the bytes: an image that was checked is not checked again.
ghost use Rattle.std.specs.Prelude.{◌≡◌, ◌<◌};
ghost use Rattle.records.specs.Bytes.{str_at};
ghost use Rattle.records.specs.Relations.Answer.{next_of};
ghost use Rattle.arguments.specs.Relations.Given.{between};
ghost use Rattle.arguments.specs.Relations.Outline.{given_from, value_given, row_at, readable, shown_option, sought};
ghost use Rattle.arguments.specs.Relations.Places.{is_past, is_above, MayBegin, FoundBy};

use crate::Given;
use order::{compare, is_before};
use std::cmp::Ordering;

// Past a value: its tag, and then a Str, ten bytes or nothing.
fn skip_argument_value(s: &[u8], at: usize) -> Option<usize>
    ensures { result ≡ next_of (value_given s.now at) }
{
    let (tag, p) = records::read_byte(s, at)?;
    if tag == 1 {
        records::skip_str(s, p)
    } else if tag == 2 {
        records::skip_bytes(s, p, 10)
    } else {
        Some(p)
    }
}

// The value at a position, if one stands there.
pub(crate) fn read_argument_value(s: &[u8], at: usize) -> Option<Given>
    ensures { result ≡ given_from (value_given s.now at) }
{
    let (tag, p) = records::read_byte(s, at)?;
    if tag == 1 {
        let (a, e) = records::read_str(s, p)?;
        return Some(Given::Text(a, e));
    }
    if tag == 2 {
        let (sign, q) = records::read_byte(s, p)?;
        let (digits, r) = records::read_u64(s, q)?;
        let scale = *s.get(r)?;
        return Some(Given::Number(sign == 1, digits as u64, scale));
    }
    Some(Given::Nothing)
}

// Does the argument at a position have a name that is greater? So it has where none stands there.
fn is_past(s: &[u8], at: usize, name: &[u8]) -> bool
    ensures { result ≡ is_past (str_at s.now at) name.now }
{
    let Some((p, e)) = records::read_str(s, at) else {
        return true;
    };
    is_before(name, &s[p..e])
}

// Does the place of a number have a greater name? So it has where there are no more arguments.
fn is_above(s: &[u8], places: &[usize; 256], count: usize, place: usize, name: &[u8]) -> bool
    requires { place < 256 }
    ensures { result ≡ is_above s.now places.now count name.now place }
{
    count <= place * (count / 256 + 16) || is_past(s, places[place], name)
}

// The last place whose name is not greater, or the first: by halving. What `partition_point` finds is said of places in order alone, and FoundBy speaks
// of any.
fn find_place(s: &[u8], places: &[usize; 256], count: usize, name: &[u8]) -> usize
    ensures { MayBegin s.now places.now count name.now result }
{
    let mut low = 0usize;
    let mut high = (count / 16 + 1).min(256);
    while low + 1 < high {
        let mid = low + (high - low) / 2;
        if is_above(s, places, count, mid, name) {
            high = mid;
        } else {
            low = mid;
        }
    }
    low
}

// The value of a name among `count` arguments, one by one up to the first greater name.
fn scan(s: &[u8], from: usize, count: usize, name: &[u8]) -> Option<Given>
    ensures { result ≡ shown_option (sought name.now (readable count row_at s.now from)) }
{
    let mut at = from;
    for _ in 0..count {
        let (p, e) = records::read_str(s, at)?;
        match compare(&s[p..e], name) {
            Ordering::Less => at = skip_argument_value(s, e)?,
            Ordering::Equal => return read_argument_value(s, e),
            Ordering::Greater => return None,
        }
    }
    None
}

// What the arguments give for a name. The places are those that check_arguments left.
pub fn find_argument(args: &[u8], places: &[usize; 256], name: &[u8]) -> Option<Given>
    ensures { FoundBy args.now places.now name.now result }
{
    let (count, _) = records::read_u16(args, 5)?;
    let j = find_place(args, places, count, name);
    let passed = j * (count / 256 + 16);
    scan(args, places[j], count - passed, name)
}

// A text that find_argument found, as a part of the arguments: from a up to e, and empty where that is no part.
pub fn text_of<'a>(args: &'a [u8], a: usize, e: usize) -> &'a [u8]
    ensures { result.now ≡ between args.now a e }
{
    args.get(a..e).unwrap_or(&[])
}
