// Inline expressions that hold no other, written or resolved; what follows a call that is written; and a text of its own, once it is made.
ghost use Rattle.std.specs.Prelude.{◌≡◌, List, ℕ};
ghost use Rattle.resolver.specs.Relations.Meets.{world, env, lent};
ghost use Rattle.resolver.specs.Relations.Targets.{in_order};
ghost use Rattle.resolver.specs.Relations.Parts.{LeafWritten, LeafResolved, CallWritten, TextKept};

use crate::scope::put::put_value;
use crate::scope::value::{literal_number, literal_string};
use crate::scope::variable::{resolve_variable, write_result, write_variable};
use buffers::move_back;
use records::read_str;
use state::Progress;
use values::{Resolved, Value};
use writes::put::put_literal;

// A string literal, a number literal or a variable, past its tag, written.
pub(crate) fn write_leaf<'a>(
    store: &'a [u8],
    args: &'a [u8],
    places: &'a [usize; 256],
    text: &mut [u8],
    list: &mut [u8],
    work: &mut [u8],
    st: &mut Progress,
    tag: usize,
    p: usize,
)
    ensures { (t : List ℕ) → LeafWritten (env store.now (lent args.now places.now)) tag p (world store.now text.old list.old work.old t st.old) (world store.now text.new list.new work.new t st.new) }
{
    let Some((a, e)) = read_str(store, p) else {
        return;
    };
    if tag == 1 {
        put_literal(text, work, st, &store[a..e]);
        return;
    }
    if tag == 2 {
        put_value(store, args, text, work, st, literal_number(store, a, e));
        return;
    }
    if tag == 6 {
        write_variable(store, args, places, text, list, work, st, a, e);
    }
}

// The same, resolved.
pub(crate) fn resolve_leaf<'a>(
    store: &'a [u8],
    args: &'a [u8],
    places: &'a [usize; 256],
    list: &mut [u8],
    work: &mut [u8],
    st: &mut Progress,
    value: &mut Resolved,
    tag: usize,
    p: usize,
)
    ensures { (x t : List ℕ) → LeafResolved (env store.now (lent args.now places.now)) tag p (world store.now x list.old work.old t st.old) (world store.now x list.new work.new t st.new) value.new.value }
{
    let Some((a, e)) = read_str(store, p) else {
        return;
    };
    if tag == 1 {
        let v = literal_string(store, work, st, a, e);
        value.hold(v);
        return;
    }
    if tag == 2 {
        value.hold(literal_number(store, a, e));
        return;
    }
    if tag == 6 {
        let v = resolve_variable(store, args, places, list, st, a, e);
        value.hold(v);
    }
}

// The result of a call, its Id at p, written.
pub(crate) fn write_called<'a>(
    store: &'a [u8],
    args: &'a [u8],
    text: &mut [u8],
    list: &mut [u8],
    work: &mut [u8],
    st: &mut Progress,
    value: &Resolved,
    p: usize,
)
    ensures { (t g : List ℕ) → CallWritten (env store.now (lent args.now g)) p value.now.found value.now.value (world store.now text.old list.old work.old t st.old) (world store.now text.new list.new work.new t st.new) }
{
    let Some((a, e)) = read_str(store, p) else {
        return;
    };
    write_result(store, args, text, list, work, st, value, a, e);
}

// Does the new text stand before the workspace's back, and that within it?
fn in_order(start: usize, front: usize, back: usize, room: usize) -> bool
    ensures { result ≡ in_order start front back room }
{
    if front < start {
        return false;
    }
    if back < front {
        return false;
    }
    back <= room
}

// A text that was made at the workspace's front, from `start` on, is moved to its back; `was` says whether it interrupted one that is made aside.
pub(crate) fn keep_text(
    work: &mut [u8],
    st: &mut Progress,
    value: &mut Resolved,
    start: usize,
    was: bool,
)
    ensures { TextKept start was work.old st.old work.new st.new value.new.value }
{
    if st.is_refused() {
        return;
    }
    let front = st.front;
    let back = st.back;
    if !in_order(start, front, back, work.len()) {
        return;
    }
    let n = front - start;
    let to = back - n;
    move_back(work, start, n, to);
    st.set_kept(start, to, was);
    value.hold(Value::Work(to, back));
}
