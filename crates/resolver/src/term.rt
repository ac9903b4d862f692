// Term references, written: the arguments, and the term that is looked up.
ghost use Rattle.resolver.specs.Relations.Meets.{world, env, lent};
ghost use Rattle.resolver.specs.Relations.Members.{TermAt, FoundTermAt, PassedAt};

use crate::reference::{Target, count_if, target_of, term_flag};
use crate::scope::reference::ref_error;
use crate::scope::value::set_named;
use crate::{inline, pattern};
use records::read_u16;
use state::Progress;
use texts::Referred;
use values::Resolved;
use walks::skip_expression;

// A term reference, its tag at `at`: its arguments stay until all its text is written, and are cleared after it.
#[cycle(write)]
pub(crate) fn refer<'a>(
    store: &'a [u8],
    args: &'a [u8],
    places: &'a [usize; 256],
    text: &mut [u8],
    list: &mut [u8],
    work: &mut [u8],
    trail: &mut [usize; 102],
    st: &mut Progress,
    value: &mut Resolved,
    left: usize,
    at: usize,
)
    ensures { TermAt (env store.now (lent args.now places.now)) left at (world store.now text.old list.old work.old trail.old st.old) (world store.now text.new list.new work.new trail.new st.new) }
{
    if st.is_refused() {
        return;
    }
    let Some((flag, p)) = term_flag(store, at) else {
        return;
    };
    let old = st.back;
    if flag == 0 {
        st.set_locals(0, 0, old);
        found(store, args, places, text, list, work, trail, st, value, at);
        st.clear_locals();
        return;
    }
    each(
        store, args, places, text, list, work, trail, st, value, left, p,
    );
    if st.is_refused() {
        return;
    }
    let Some((m, named)) = read_u16(store, value.end) else {
        return;
    };
    set_named(store, work, st, named, m);
    found(store, args, places, text, list, work, trail, st, value, at);
    st.clear_locals();
    if st.is_refused() {
        return;
    }
    st.set_back(old);
}

// The positional arguments at `at`, each resolved in turn: a term does not use their values.
#[cycle(write)]
pub(crate) fn each<'a>(
    store: &'a [u8],
    args: &'a [u8],
    places: &'a [usize; 256],
    text: &mut [u8],
    list: &mut [u8],
    work: &mut [u8],
    trail: &mut [usize; 102],
    st: &mut Progress,
    value: &mut Resolved,
    left: usize,
    at: usize,
)
    ensures { PassedAt (env store.now (lent args.now places.now)) left at (world store.now text.old list.old work.old trail.old st.old) (world store.now text.new list.new work.new trail.new st.new) value.new.end }
{
    let Some((n, start)) = read_u16(store, at) else {
        return;
    };
    let mut p = start;
    for _ in 0..n {
        inline::resolve(
            store, args, places, text, list, work, trail, st, value, left, p,
        );
        let Some(q) = skip_expression(store, p, left) else {
            return;
        };
        p = q;
    }
    value.end = p;
}

// The term that a reference names, looked up and written.
#[cycle(write)]
pub(crate) fn found<'a>(
    store: &'a [u8],
    args: &'a [u8],
    places: &'a [usize; 256],
    text: &mut [u8],
    list: &mut [u8],
    work: &mut [u8],
    trail: &mut [usize; 102],
    st: &mut Progress,
    value: &mut Resolved,
    at: usize,
)
    ensures { FoundTermAt (env store.now (lent args.now places.now)) at (world store.now text.old list.old work.old trail.old st.old) (world store.now text.new list.new work.new trail.new st.new) }
{
    if st.is_refused() {
        return;
    }
    match target_of(store, at, true) {
        Target::At(q) => pattern::track(
            store, args, places, text, list, work, trail, st, value, at, q,
        ),
        Target::NoValue(_, _) => {}
        Target::Missing(lost) => {
            count_if(st, lost);
            ref_error(store, text, list, work, st, Referred::Term, at);
        }
        Target::Bad => {}
    }
}
