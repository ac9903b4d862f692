// Error records appended to a list, and the list's header.
ghost use Rattle.std.specs.Prelude.{◌≡◌, List, [], ◌∷◌, ◌++◌, ℕ, ◌+◌, ◌≤◌, ◌<◌, length};
ghost use Rattle.records.specs.Bytes.{to_be};
ghost use Rattle.records.specs.Encode.{enc_str, enc_optional, enc_kind};
ghost use Rattle.records.specs.Errors.{overriding, reference, no_value, enc_referred, enc_error};
ghost use Rattle.buffers.specs.Relations.Append.{over};
ghost use Rattle.records.specs.Optional.{lent};
ghost use Rattle.texts.specs.Relations.Report.{kind_of, referred_of, plain_of, room_for, attribute_len, recorded, headed};

use buffers::NoRoom;
use records::{write_bytes, write_u16, write_u32};

// What an Overriding record names.
#[derive(Clone, Copy, Debug, PartialEq, Eq)]
pub enum Kind {
    Message = 1,
    Term = 2,
}

impl Kind {
    #[tactic(auto, unfolding(crate::specs::Relations::Report::kind_of, records::specs::Encode::enc_kind))]
    fn byte(self) -> u8
        ensures { result ≡ enc_kind (kind_of self) }
    {
        self as u8
    }
}

// What a Reference record names.
#[derive(Clone, Copy, Debug, PartialEq, Eq)]
pub enum Referred {
    Message = 1,
    Term = 2,
    Function = 3,
    Variable = 4,
}

impl Referred {
    #[tactic(auto, unfolding(crate::specs::Relations::Report::referred_of, records::specs::Errors::enc_referred))]
    fn byte(self) -> u8
        ensures { result ≡ enc_referred (referred_of self) }
    {
        self as u8
    }
}

// The errors that name nothing.
#[derive(Clone, Copy, Debug, PartialEq, Eq)]
pub enum Plain {
    MissingDefault = 4,
    Cyclic = 5,
    TooManyPlaceables = 6,
}

impl Plain {
    // The tag of its record, which has nothing else.
    #[tactic(auto, unfolding(crate::specs::Relations::Report::plain_of, records::specs::Errors::enc_error, records::specs::Errors::enc_record, records::specs::Bytes::to_be))]
    fn tag(self) -> u8
        ensures { enc_error (plain_of self) ≡ 0 ∷ 1 ∷ result ∷ [] }
    {
        self as u8
    }
}

// Is there room in a list of `size` bytes, at `at`, for a record of n bytes?
#[tactic(auto, unfolding(crate::specs::Relations::Report::room_for))]
fn room_for(size: usize, at: usize, n: usize) -> bool
    ensures { result ≡ room_for size at n }
{
    n <= 65537 && at <= 4294967295 && at + n <= 4294967295 && at + n <= size
}

// A record's length, of the rest, and its tag.
fn write_head(d: &mut [u8], at: usize, n: usize, tag: u8)
    requires { (at + 3 ≤ length d.old) × (n < 65536) }
    ensures { d.new ≡ over d.old at (to_be 2 n ++ (tag ∷ [])) }
{
    write_u16(d, at, n);
    d[at + 2] = tag;
}

fn write_str(d: &mut [u8], at: usize, s: &[u8])
    requires { (at + (2 + length s.now) ≤ length d.old) × (length s.now < 65536) }
    ensures { d.new ≡ over d.old at (enc_str s.now) }
{
    write_u16(d, at, s.len());
    write_bytes(d, at + 2, s);
}

// A record's length, its tag, a kind and a name.
fn write_named(d: &mut [u8], at: usize, n: usize, tag: u8, kind: u8, s: &[u8])
    requires { (at + (6 + length s.now) ≤ length d.old) × (n < 65536) × (length s.now < 65536) }
    ensures { d.new ≡ over d.old at (to_be 2 n ++ (tag ∷ kind ∷ enc_str s.now)) }
{
    write_head(d, at, n, tag);
    d[at + 3] = kind;
    write_str(d, at + 4, s);
}

// Appends an Overriding record.
#[tactic(auto, using(crate::proofs::Recording::room_true))]
pub fn put_overriding(list: &mut [u8], at: usize, kind: Kind, id: &[u8]) -> Result<usize, NoRoom>
    ensures { (result, list.new) ≡ recorded list.old at (overriding (kind_of kind) id.now) }
{
    let n = id.len();
    if 65535 < n {
        return Err(NoRoom);
    }
    if room_for(list.len(), at, 6 + n) {
        write_named(list, at, 4 + n, 1, kind.byte(), id);
        return Ok(at + (6 + n));
    }
    Err(NoRoom)
}

// Appends a NoValue record.
#[tactic(auto, using(crate::proofs::Recording::room_true))]
pub fn put_no_value(list: &mut [u8], at: usize, id: &[u8]) -> Result<usize, NoRoom>
    ensures { (result, list.new) ≡ recorded list.old at (no_value id.now) }
{
    let n = id.len();
    if 65535 < n {
        return Err(NoRoom);
    }
    if room_for(list.len(), at, 5 + n) {
        write_head(list, at, 3 + n, 3);
        write_str(list, at + 3, id);
        return Ok(at + (5 + n));
    }
    Err(NoRoom)
}

// Appends a record that has nothing but its tag.
#[tactic(auto, using(crate::proofs::Recording::room_true))]
pub fn put_plain(list: &mut [u8], at: usize, error: Plain) -> Result<usize, NoRoom>
    ensures { (result, list.new) ≡ recorded list.old at (plain_of error) }
{
    if room_for(list.len(), at, 3) {
        write_head(list, at, 1, error.tag());
        return Ok(at + 3);
    }
    Err(NoRoom)
}

// How many bytes an attribute takes with its Flag: 65,538, more than a record has, where its length is no u16.
#[tactic(auto, unfolding(crate::specs::Relations::Report::attribute_len))]
fn attribute_len(attribute: Option<&[u8]>) -> usize
    ensures { result ≡ attribute_len (lent attribute.entry) }
{
    match attribute {
        Some(s) if 65535 < s.len() => 65538,
        Some(s) => 3 + s.len(),
        None => 1,
    }
}

// A Flag, and the attribute that it announces.
fn write_attribute(d: &mut [u8], at: usize, attribute: Option<&[u8]>)
    requires { (at + attribute_len (lent attribute) ≤ length d.old) × (attribute_len (lent attribute) ≤ 65537) }
    ensures { d.new ≡ over d.old at (enc_optional enc_str (lent attribute.entry)) }
{
    if let Some(s) = attribute {
        d[at] = 1;
        write_str(d, at + 1, s);
    } else {
        d[at] = 0;
    }
}

// Appends a Reference record.
#[tactic(auto, using(crate::proofs::Recording::room_true, crate::proofs::Recording::attribute_most))]
pub fn put_reference(
    list: &mut [u8],
    at: usize,
    kind: Referred,
    id: &[u8],
    attribute: Option<&[u8]>,
) -> Result<usize, NoRoom>
    ensures { (result, list.new) ≡ recorded list.old at (reference (referred_of kind) id.now (lent attribute.entry)) }
{
    let n = id.len();
    if 65535 < n {
        return Err(NoRoom);
    }
    let m = attribute_len(attribute);
    if room_for(list.len(), at, 6 + n + m) {
        write_named(list, at, 4 + n + m, 2, kind.byte(), id);
        write_attribute(list, at + (6 + n), attribute);
        return Ok(at + (6 + n + m));
    }
    Err(NoRoom)
}

// Writes an error list's header, for a whole length, at its front, if both fit.
pub fn put_header(list: &mut [u8], whole: usize)
    ensures { list.new ≡ headed list.old whole }
{
    if list.len() < 5 || 4294967296 <= whole {
        return;
    }
    write_u32(list, 0, whole);
    list[4] = 1;
}
