// The list of a plain addition: one Overriding record for each entry that is marked.
#![tactic(auto)]

ghost use Rattle.std.specs.Prelude.{◌≡◌, ℕ, ◌+◌, ◌≤◌, ◌<◌, List, length, get_or, eqb};
ghost use Rattle.records.specs.Got.{got};
ghost use Rattle.records.specs.Encode.{enc_all};
ghost use Rattle.records.specs.Errors.{enc_error};
ghost use Rattle.records.specs.Images.{resource_of, Entry};
ghost use Rattle.buffers.specs.Relations.Append.{over};
ghost use Rattle.entries.specs.Relations.Marked.{marked};
ghost use Rattle.listing.specs.Relations.Tallies.{Tallied, Tallies};
ghost use Rattle.listing.specs.Relations.Lists.{kind_by, ListsEntry, Lists};

use buffers::NoRoom;
use entries::resource::{read_str_behind, skip_entry};
use records::{read_byte, read_u16};
use texts::{Kind, put_header, put_overriding};

// Records, and their bytes.
#[derive(Clone, Copy)]
pub struct Tally {
    pub count: usize,
    pub size: usize,
}

// The mark of entry k: 0 where there is none.
fn mark_of(marks: &[u8], k: usize) -> u8
    ensures { result ≡ get_or marks.now k 0 }
{
    marks.get(k).copied().unwrap_or(0)
}

impl Tally {
    // One record more, for an Id of n bytes, if the entry is marked.
    fn with_entry(self, mark: u8, n: usize) -> Tally
        requires { (self.count < 65536) × (self.size + n < 9000000000) }
        ensures { Tallied self mark n result }
    {
        if mark == 1 {
            Tally {
                count: self.count + 1,
                size: self.size + (6 + n),
            }
        } else {
            self
        }
    }
}

// The records of the marked entries.
#[tactic(auto, using(entries::proofs::Walk::behind_in))]
fn tally_marked(image: &[u8], marks: &[u8]) -> Tally
    ensures { ((es : List Entry) (f : ℕ) → resource_of image.now ≡ got es f → Tallies (marked marks.now 0 es) result) × (result.size < 9000000000) }
{
    let mut tally = Tally { count: 0, size: 0 };
    let Some((count, start)) = read_u16(image, 5) else {
        return tally;
    };
    let mut at = start;
    for k in 0..count {
        let Some((a, e)) = read_str_behind(image, at, 1) else {
            return tally;
        };
        tally = tally.with_entry(mark_of(marks, k), e - a);
        let Some(next) = skip_entry(image, at) else {
            return tally;
        };
        at = next;
    }
    tally
}

#[tactic(auto, unfolding(crate::specs::Relations::Lists::kind_by))]
fn kind_of(b: usize) -> Kind
    ensures { result ≡ kind_by (eqb b 1) }
{
    if b == 1 { Kind::Message } else { Kind::Term }
}

// Appends the record of a marked entry.
#[tactic(auto, using(entries::proofs::Walk::behind_in))]
fn list_entry(image: &[u8], at: usize, mark: u8, list: &mut [u8], to: usize) -> usize
    ensures { ListsEntry image.now at mark list.old to result list.new }
{
    if mark != 1 {
        return to;
    }
    let Some((kind, _)) = read_byte(image, at) else {
        return to;
    };
    let Some((a, e)) = read_str_behind(image, at, 1) else {
        return to;
    };
    put_overriding(list, to, kind_of(kind), &image[a..e]).unwrap_or(to)
}

// Writes the records of the marked entries, behind the header.
fn list_marked(image: &[u8], marks: &[u8], list: &mut [u8])
    ensures { (es : List Entry) (f : ℕ) → resource_of image.now ≡ got es f → 5 + length (enc_all enc_error (marked marks.now 0 es)) ≤ length list.old
        → list.new ≡ over list.old 5 (enc_all enc_error (marked marks.now 0 es)) }
{
    let Some((count, start)) = read_u16(image, 5) else {
        return;
    };
    let mut at = start;
    let mut to = 5usize;
    for k in 0..count {
        to = list_entry(image, at, mark_of(marks, k), list, to);
        let Some(next) = skip_entry(image, at) else {
            return;
        };
        at = next;
    }
}

// Lists the marked entries in a buffer that is long enough for the header and their records, and answers how many there are.
pub fn list_repeats(image: &[u8], marks: &[u8; 10922], list: &mut [u8]) -> Result<usize, NoRoom>
    ensures { (es : List Entry) (f : ℕ) → resource_of image.now ≡ got es f → Lists (marked marks.now 0 es) list.old result list.new }
{
    let tally = tally_marked(image, marks);
    if list.len() < 5 + tally.size {
        return Err(NoRoom);
    }
    list_marked(image, marks, list);
    put_header(list, 5 + tally.size);
    Ok(tally.count)
}
