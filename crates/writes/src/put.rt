// Text written: to the text buffer, or aside to the workspace's front.
ghost use Rattle.std.specs.Prelude.{◌≡◌, Ok, [], ◌∷◌, true, ℕ, ◌+◌, ◌≤◌, ◌<◌, length};
ghost use Rattle.decimals.specs.Text.{ranged_text};
ghost use Rattle.decimals.specs.Relations.Shown.{told};
ghost use Rattle.records.specs.Bytes.{part};
ghost use Rattle.arguments.specs.Relations.Given.{between};
ghost use Rattle.buffers.specs.Relations.Append.{over};
ghost use Rattle.unescape.specs.Unescape.{unescape};
ghost use Rattle.writes.specs.Written.{text_after, work_after, has_room, to_work, written, written_all, written_where};

use arguments::text_of;
use buffers::{NoRoom, put_bytes};
use decimals::text::number_text;
use decimals::types::Number;
use records::write_bytes;
use refusals::Refusal;
use state::Progress;
use unescape::{unescape_into, unescaped_len};
use workspace::highest;

// Whether n bytes more have room in the workspace, of `len` in all, between its front and its back.
pub fn has_room(st: &Progress, n: usize, len: usize) -> bool
    ensures { result ≡ has_room st.now n len }
{
    let front = st.front;
    let back = st.back;
    if back < front {
        return false;
    }
    if back - front < n {
        return false;
    }
    back <= len
}

// The workspace's front has n bytes more, of `len` in all.
fn grow(st: &mut Progress, n: usize, len: usize)
    requires { has_room st.old n len ≡ true }
    ensures { st.new ≡ work_after len (Ok (st.old.front + n)) st.old }
{
    let front = st.front + n;
    let high = highest(st.high, front, st.back, len);
    st.set_front(front, high);
}

// So much text, or refused.
fn text_after(st: &mut Progress, wrote: Result<usize, NoRoom>)
    ensures { st.new ≡ text_after wrote st.old }
{
    match wrote {
        Ok(e) => st.set_text(e),
        Err(NoRoom) => st.refuse(Refusal::ShortText),
    }
}

// Writes src to the workspace's front.
fn put_front(work: &mut [u8], st: &mut Progress, src: &[u8])
    ensures { (work.new, st.new) ≡ to_work src.now work.old st.old }
{
    if has_room(&*st, src.len(), work.len()) {
        write_bytes(work, st.front, src);
        grow(st, src.len(), work.len());
        return;
    }
    st.refuse(Refusal::ShortWorkspace);
}

// Writes src: to the workspace's front while a text is made aside, else to the text buffer.
pub fn put(text: &mut [u8], work: &mut [u8], st: &mut Progress, src: &[u8])
    ensures { (text.new, work.new, st.new) ≡ written src.now text.old work.old st.old }
{
    if st.is_refused() {
        return;
    }
    if st.aside {
        put_front(work, st, src);
        return;
    }
    let w = put_bytes(text, st.text_at, src);
    text_after(st, w);
}

// Writes what a string literal reads as to the workspace's front.
fn literal_front(work: &mut [u8], st: &mut Progress, src: &[u8])
    ensures { (work.new, st.new) ≡ to_work (unescape src.now) work.old st.old }
{
    let n = unescaped_len(src);
    if has_room(&*st, n, work.len()) {
        let _ = unescape_into(src, work, st.front);
        grow(st, n, work.len());
        return;
    }
    st.refuse(Refusal::ShortWorkspace);
}

// Writes a string literal as it reads.
pub fn put_literal(text: &mut [u8], work: &mut [u8], st: &mut Progress, src: &[u8])
    ensures { (text.new, work.new, st.new) ≡ written (unescape src.now) text.old work.old st.old }
{
    if st.is_refused() {
        return;
    }
    if st.aside {
        literal_front(work, st, src);
        return;
    }
    let w = unescape_into(src, text, st.text_at);
    text_after(st, w);
}

// Copies n bytes from `from` to `to`; they may overlap.
fn copy_part(work: &mut [u8], from: usize, to: usize, n: usize)
    requires { (to + n ≤ length work.old) × (0 < n → from + n ≤ length work.old) }
    ensures { work.new ≡ over work.old to (part work.old from n) }
{
    if 0 < n {
        work.copy_within(from..from + n, to);
    }
}

// Writes the part of the workspace from a up to e to its front.
fn part_front(work: &mut [u8], st: &mut Progress, a: usize, e: usize)
    ensures { (work.new, st.new) ≡ to_work (between work.old a e) work.old st.old }
{
    let n = text_of(work, a, e).len();
    if has_room(&*st, n, work.len()) {
        copy_part(work, a, st.front, n);
        grow(st, n, work.len());
        return;
    }
    st.refuse(Refusal::ShortWorkspace);
}

// Writes the part of the workspace from a up to e; no bytes where that is no part.
pub fn put_work(text: &mut [u8], work: &mut [u8], st: &mut Progress, a: usize, e: usize)
    ensures { (text.new, work.new, st.new) ≡ written (between work.old a e) text.old work.old st.old }
{
    if st.is_refused() {
        return;
    }
    if st.aside {
        part_front(work, st, a, e);
        return;
    }
    let w = put_bytes(text, st.text_at, text_of(work, a, e));
    text_after(st, w);
}

// Writes a number's text; no bytes for a number out of range.
pub fn put_number(text: &mut [u8], work: &mut [u8], st: &mut Progress, n: Number)
    ensures { (text.new, work.new, st.new) ≡ written (ranged_text (told n)) text.old work.old st.old }
{
    let t = number_text(n);
    let bytes = t.bytes;
    let len = t.len;
    put(text, work, st, &bytes[0..len]);
}

// What opens, a name, and what closes.
pub fn put_braced(
    text: &mut [u8],
    work: &mut [u8],
    st: &mut Progress,
    head: &[u8],
    src: &[u8],
    tail: &[u8],
)
    ensures { (text.new, work.new, st.new) ≡ written_all (head.now ∷ src.now ∷ tail.now ∷ []) (text.old, work.old, st.old) }
{
    put(text, work, st, head);
    put(text, work, st, src);
    put(text, work, st, tail);
}

// U+2068, FIRST STRONG ISOLATE.
pub fn put_fsi(text: &mut [u8], work: &mut [u8], st: &mut Progress, on: bool)
    ensures { (text.new, work.new, st.new) ≡ written_where on (0xe2 ∷ 0x81 ∷ 0xa8 ∷ []) text.old work.old st.old }
{
    if on {
        put(text, work, st, b"\xE2\x81\xA8");
    }
}

// U+2069, POP DIRECTIONAL ISOLATE.
pub fn put_pdi(text: &mut [u8], work: &mut [u8], st: &mut Progress, on: bool)
    ensures { (text.new, work.new, st.new) ≡ written_where on (0xe2 ∷ 0x81 ∷ 0xa9 ∷ []) text.old work.old st.old }
{
    if on {
        put(text, work, st, b"\xE2\x81\xA9");
    }
}
