// Entries and their attributes.
ghost use Rattle.std.specs.Prelude.{◌≡◌, [], ◌∷◌};
ghost use Rattle.records.specs.Relations.Answer.{next_of};
ghost use Rattle.records.specs.Decode.{many};
ghost use Rattle.records.specs.Images.{attribute_at, entry_at};
ghost use Rattle.images.specs.Relations.Entry.{entry_of, kind_of};

// How deep expressions nest at most.
const MAX_DEPTH: usize = 32;

// An attribute: Id and pattern.
pub(crate) fn check_attribute(s: &[u8], at: usize) -> Option<usize>
    ensures { result ≡ next_of (attribute_at s.now at) }
{
    let e = records::check_id(s, at)?;
    patterns::check_pattern(s, e, MAX_DEPTH)
}

// `count` attributes.
pub(crate) fn check_attributes(s: &[u8], from: usize, count: usize) -> Option<usize>
    ensures { result ≡ next_of (many [] ◌∷◌ count attribute_at s.now from) }
{
    let mut at = from;
    for _ in 0..count {
        at = check_attribute(s, at)?;
    }
    Some(at)
}

// What follows the kind of an entry: Id, value and attributes. A term has a value; a message has a value or an attribute.
fn check_entry_of(s: &[u8], at: usize, term: bool) -> Option<usize>
    ensures { result ≡ next_of (entry_of (kind_of term) s.now at) }
{
    let q = records::check_id(s, at)?;
    let (flag, v) = records::read_byte(s, q)?;
    match flag {
        0 => {
            if term {
                return None;
            }
            let (k, e) = records::read_u16(s, v)?;
            if 0 < k {
                check_attributes(s, e, k)
            } else {
                None
            }
        }
        1 => {
            let r = patterns::check_pattern(s, v, MAX_DEPTH)?;
            let (k, e) = records::read_u16(s, r)?;
            check_attributes(s, e, k)
        }
        _ => None,
    }
}

// An entry: kind, Id, value Flag, pattern if 1, u16 attribute count, each Id and pattern.
pub(crate) fn check_entry(s: &[u8], at: usize) -> Option<usize>
    ensures { result ≡ next_of (entry_at s.now at) }
{
    let (kind, p) = records::read_byte(s, at)?;
    match kind {
        1 => check_entry_of(s, p, false),
        2 => check_entry_of(s, p, true),
        _ => None,
    }
}

// `count` entries.
pub(crate) fn check_entries(s: &[u8], from: usize, count: usize) -> Option<usize>
    ensures { result ≡ next_of (many [] ◌∷◌ count entry_at s.now from) }
{
    let mut at = from;
    for _ in 0..count {
        at = check_entry(s, at)?;
    }
    Some(at)
}
