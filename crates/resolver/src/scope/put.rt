// What stands in the text for a value, or for an expression that has an error.
ghost use Rattle.std.specs.Prelude.{◌≡◌, List, ℕ};
ghost use Rattle.resolution.specs.Effect.{write};
ghost use Rattle.resolver.specs.Relations.Meets.{world, Acts, text_inside, bytes_of};
ghost use Rattle.resolver.specs.Relations.Leaves.{ErrorAt, CutAt, pieces_text};
ghost use Rattle.writes.specs.Written.{written};

use crate::scope::error::{Pieces, error_pieces};
use arguments::text_of;
use records::read_byte;
use state::Progress;
use values::Value;
use writes::put::{put, put_braced, put_number, put_work};

// Writes a value's text.
pub(crate) fn put_value<'a>(
    store: &'a [u8],
    args: &'a [u8],
    text: &mut [u8],
    work: &mut [u8],
    st: &mut Progress,
    value: Value,
)
    ensures { (text.new, work.new, st.new) ≡ written (bytes_of store.now args.now work.old value) text.old work.old st.old }
{
    match value {
        Value::Work(a, e) => put_work(text, work, st, a, e),
        Value::Number(n) => put_number(text, work, st, n),
        // of a value without a text an empty write, which the definition counts to the highest use of the workspace as any other
        _ => put(text, work, st, text_in(store, args, value)),
    }
}

// A value's text: a part of the store or of the arguments, never a copy; empty where it has none in either.
pub(crate) fn text_in<'a>(store: &'a [u8], args: &'a [u8], value: Value) -> &'a [u8]
    ensures { result.now ≡ text_inside store.now args.now value }
{
    match value {
        Value::Store(a, e) => text_of(store, a, e),
        Value::Args(a, e) => text_of(args, a, e),
        _ => &store[0..0],
    }
}

// The words and the parts of the store that stand in the place of an expression, and what closes.
fn put_pieces(
    store: &[u8],
    words: &[u8],
    text: &mut [u8],
    work: &mut [u8],
    st: &mut Progress,
    p: Pieces,
)
    ensures { (i l t : List ℕ) → Acts (write (pieces_text words.now store.now p)) (world i text.old l work.old t st.old) (world i text.new l work.new t st.new) }
{
    let head = text_of(words, p.head, p.head_end);
    let id = text_of(store, p.from, p.to);
    let joint = text_of(words, p.joint, p.joint_end);
    let attribute = text_of(store, p.start, p.end);
    put_braced(text, work, st, head, id, joint);
    put_braced(text, work, st, attribute, b"}", b"");
}

// `write_error` in braces: what stands in the place of an inline expression that has an error.
pub(crate) fn put_error(
    store: &[u8],
    text: &mut [u8],
    work: &mut [u8],
    st: &mut Progress,
    at: usize,
)
    ensures { ErrorAt store.now at text.old work.old st.old text.new work.new st.new }
{
    let p = error_pieces(store, at);
    put_pieces(store, b"{???{-{$.()", text, work, st, p);
}

// The end of `maybe_track`: where the expression was cut short, its error.
pub(crate) fn put_cut(store: &[u8], text: &mut [u8], work: &mut [u8], st: &mut Progress, at: usize)
    ensures { CutAt store.now at text.old work.old st.old text.new work.new st.new }
{
    if st.is_refused() {
        return;
    }
    if st.dirty {
        let Some((tag, p)) = read_byte(store, at) else {
            return;
        };
        if tag == 8 {
            put_error(store, text, work, st, p);
            return;
        }
        put_error(store, text, work, st, at);
    }
}
