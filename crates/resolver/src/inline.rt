// Inline expressions (the Rust's inline_expression.rs): written, or resolved to a value.
ghost use Rattle.resolver.specs.Relations.Meets.{world, env, lent};
ghost use Rattle.resolver.specs.Relations.Members.{InlineAt, MessageAt, ValueAt, TextAt};

use crate::reference::{Target, count_if, target_of};
use crate::scope::leaf::{keep_text, resolve_leaf, write_called, write_leaf};
use crate::scope::put::put_error;
use crate::scope::reference::ref_error;
use crate::{call, expression, pattern, term};
use heads::gives_text;
use records::read_byte;
use state::Progress;
use texts::Referred;
use values::Resolved;
use writes::list::list_no_value;

// `InlineExpression::write`
#[cycle(write)]
pub(crate) fn write<'a>(
    store: &'a [u8],
    args: &'a [u8],
    places: &'a [usize; 256],
    text: &mut [u8],
    list: &mut [u8],
    work: &mut [u8],
    trail: &mut [usize; 102],
    st: &mut Progress,
    value: &mut Resolved,
    left: usize,
    at: usize,
)
    ensures { InlineAt (env store.now (lent args.now places.now)) left at (world store.now text.old list.old work.old trail.old st.old) (world store.now text.new list.new work.new trail.new st.new) }
{
    if st.is_refused() {
        return;
    }
    if left == 0 {
        return;
    }
    let Some((tag, p)) = read_byte(store, at) else {
        return;
    };
    if tag == 7 {
        expression::write(
            store,
            args,
            places,
            text,
            list,
            work,
            trail,
            st,
            value,
            left - 1,
            p,
        );
        return;
    }
    if tag == 4 {
        message(store, args, places, text, list, work, trail, st, value, at);
        return;
    }
    if tag == 5 {
        term::refer(
            store,
            args,
            places,
            text,
            list,
            work,
            trail,
            st,
            value,
            left - 1,
            at,
        );
        return;
    }
    if tag == 3 {
        call::function(
            store,
            args,
            places,
            text,
            list,
            work,
            trail,
            st,
            value,
            left - 1,
            p,
        );
        write_called(store, args, text, list, work, st, &*value, p);
        return;
    }
    write_leaf(store, args, places, text, list, work, st, tag, p);
}

// A message reference, its tag at `at`.
#[cycle(write)]
pub(crate) fn message<'a>(
    store: &'a [u8],
    args: &'a [u8],
    places: &'a [usize; 256],
    text: &mut [u8],
    list: &mut [u8],
    work: &mut [u8],
    trail: &mut [usize; 102],
    st: &mut Progress,
    value: &mut Resolved,
    at: usize,
)
    ensures { MessageAt (env store.now (lent args.now places.now)) at (world store.now text.old list.old work.old trail.old st.old) (world store.now text.new list.new work.new trail.new st.new) }
{
    if st.is_refused() {
        return;
    }
    match target_of(store, at, false) {
        Target::At(q) => pattern::track(
            store, args, places, text, list, work, trail, st, value, at, q,
        ),
        Target::NoValue(from, to) => {
            list_no_value(list, st, &store[from..to]);
            put_error(store, text, work, st, at);
        }
        Target::Missing(lost) => {
            count_if(st, lost);
            ref_error(store, text, list, work, st, Referred::Message, at);
        }
        Target::Bad => {}
    }
}

// `InlineExpression::resolve`: a variable is the most frequent.
#[cycle(write)]
pub(crate) fn resolve<'a>(
    store: &'a [u8],
    args: &'a [u8],
    places: &'a [usize; 256],
    text: &mut [u8],
    list: &mut [u8],
    work: &mut [u8],
    trail: &mut [usize; 102],
    st: &mut Progress,
    value: &mut Resolved,
    left: usize,
    at: usize,
)
    ensures { ValueAt (env store.now (lent args.now places.now)) left at (world store.now text.old list.old work.old trail.old st.old) (world store.now text.new list.new work.new trail.new st.new) value.new.value }
{
    if st.is_refused() {
        return;
    }
    if left == 0 {
        return;
    }
    let Some((tag, p)) = read_byte(store, at) else {
        return;
    };
    if tag == 6 {
        resolve_leaf(store, args, places, list, work, st, value, tag, p);
        return;
    }
    if gives_text(tag) {
        as_text(
            store, args, places, text, list, work, trail, st, value, left, at, tag, p,
        );
        return;
    }
    if tag == 3 {
        call::function(
            store,
            args,
            places,
            text,
            list,
            work,
            trail,
            st,
            value,
            left - 1,
            p,
        );
        return;
    }
    resolve_leaf(store, args, places, list, work, st, value, tag, p);
}

// A message, a term or an inline placeable, its tag at `at` and the rest at p, as a text of its own: made at the workspace's front, then moved to its back.
#[cycle(write)]
pub(crate) fn as_text<'a>(
    store: &'a [u8],
    args: &'a [u8],
    places: &'a [usize; 256],
    text: &mut [u8],
    list: &mut [u8],
    work: &mut [u8],
    trail: &mut [usize; 102],
    st: &mut Progress,
    value: &mut Resolved,
    left: usize,
    at: usize,
    tag: usize,
    p: usize,
)
    ensures { TextAt (env store.now (lent args.now places.now)) left at tag p (world store.now text.old list.old work.old trail.old st.old) (world store.now text.new list.new work.new trail.new st.new) value.new.value }
{
    let was = st.aside;
    let start = st.front;
    st.set_aside();
    if tag == 4 {
        message(store, args, places, text, list, work, trail, st, value, at);
        keep_text(work, st, value, start, was);
        return;
    }
    if left == 0 {
        return;
    }
    if tag == 5 {
        term::refer(
            store,
            args,
            places,
            text,
            list,
            work,
            trail,
            st,
            value,
            left - 1,
            at,
        );
        keep_text(work, st, value, start, was);
        return;
    }
    expression::write(
        store,
        args,
        places,
        text,
        list,
        work,
        trail,
        st,
        value,
        left - 1,
        p,
    );
    keep_text(work, st, value, start, was);
}
