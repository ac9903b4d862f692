// Patterns, written: the elements in turn, the placeables begun, and the pattern that a reference leads to.
// Patterns, expressions and inline expressions write each other. What falls at each call: placeables left, then nesting, then stage.
ghost use Rattle.resolver.specs.Relations.Meets.{world, env, lent};
ghost use Rattle.resolver.specs.Relations.Members.{PatternAt, ElementAt, TrackAt};

use crate::expression;
use crate::scope::put::{put_cut, put_error};
use heads::{has_marks, isolates};
use records::{read_byte, read_str, read_u16, read_u32};
use state::Progress;
use texts::Plain;
use trail::on_trail;
use values::Resolved;
use walks::skip_element;
use writes::list::{list_plain, list_too_many};
use writes::put::{put, put_fsi, put_pdi};

// `Pattern::write`
#[cycle(write)]
pub(crate) fn write<'a>(
    store: &'a [u8],
    args: &'a [u8],
    places: &'a [usize; 256],
    text: &mut [u8],
    list: &mut [u8],
    work: &mut [u8],
    trail: &mut [usize; 102],
    st: &mut Progress,
    value: &mut Resolved,
    left: usize,
    at: usize,
)
    ensures { PatternAt (env store.now (lent args.now places.now)) left at (world store.now text.old list.old work.old trail.old st.old) (world store.now text.new list.new work.new trail.new st.new) }
{
    let Some((_, a)) = read_u32(store, at) else {
        return;
    };
    let Some((n, start)) = read_u16(store, a) else {
        return;
    };
    let iso = isolates(store, n);
    let mut p = start;
    for _ in 0..n {
        element(
            store, args, places, text, list, work, trail, st, value, left, iso, p,
        );
        let Some(q) = skip_element(store, p, left) else {
            return;
        };
        p = q;
    }
}

// One turn of the loop of `Pattern::write`, with `maybe_track`.
#[cycle(write)]
pub(crate) fn element<'a>(
    store: &'a [u8],
    args: &'a [u8],
    places: &'a [usize; 256],
    text: &mut [u8],
    list: &mut [u8],
    work: &mut [u8],
    trail: &mut [usize; 102],
    st: &mut Progress,
    value: &mut Resolved,
    left: usize,
    iso: bool,
    at: usize,
)
    ensures { ElementAt (env store.now (lent args.now places.now)) left iso at (world store.now text.old list.old work.old trail.old st.old) (world store.now text.new list.new work.new trail.new st.new) }
{
    if st.is_refused() {
        return;
    }
    if st.dirty {
        return;
    }
    let Some((tag, p)) = read_byte(store, at) else {
        return;
    };
    if tag == 1 {
        let Some((a, e)) = read_str(store, p) else {
            return;
        };
        put(text, work, st, &store[a..e]);
        return;
    }
    if !st.may_begin() {
        if 100 < st.begun {
            return;
        }
        list_too_many(list, st);
        return;
    }
    st.begin();
    let marks = has_marks(store, iso, p);
    put_fsi(text, work, st, marks);
    expression::write(
        store, args, places, text, list, work, trail, st, value, left, p,
    );
    put_cut(store, text, work, st, p);
    put_pdi(text, work, st, marks);
}

// `Scope::track`: the pattern at q, for the reference whose tag is at `at`.
#[cycle(write)]
pub(crate) fn track<'a>(
    store: &'a [u8],
    args: &'a [u8],
    places: &'a [usize; 256],
    text: &mut [u8],
    list: &mut [u8],
    work: &mut [u8],
    trail: &mut [usize; 102],
    st: &mut Progress,
    value: &mut Resolved,
    at: usize,
    q: usize,
)
    ensures { TrackAt (env store.now (lent args.now places.now)) at q (world store.now text.old list.old work.old trail.old st.old) (world store.now text.new list.new work.new trail.new st.new) }
{
    if st.is_refused() {
        return;
    }
    let d = st.depth;
    if 102 <= d {
        return;
    }
    if on_trail(store, &*trail, d, q) {
        list_plain(list, st, Plain::Cyclic);
        put_error(store, text, work, st, at);
        return;
    }
    trail[d] = q;
    st.set_depth(d + 1);
    write(
        store, args, places, text, list, work, trail, st, value, 32, q,
    );
    st.set_depth(d);
}
