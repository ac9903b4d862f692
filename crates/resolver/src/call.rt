// Calls: the positional arguments, and the function's result.
ghost use Rattle.resolver.specs.Relations.Meets.{world, env, lent};
ghost use Rattle.std.specs.Prelude.{◌≡◌};
ghost use Rattle.resolver.specs.Relations.Members.{PositionalAt, CalledAt};
ghost use Rattle.resolver.specs.Relations.Answers.{AnswerAt, AppliedAt};

use crate::inline;
use crate::scope::call::number_function;
use crate::scope::value::resolve_named;
use entries::Holder;
use entries::entry::find_holder;
use records::{read_str, read_u16};
use state::Progress;
use values::{Resolved, Value};
use walks::skip_expression;

// The positional arguments at `at`, each resolved in turn: the first value is kept.
#[cycle(write)]
pub(crate) fn each<'a>(
    store: &'a [u8],
    args: &'a [u8],
    places: &'a [usize; 256],
    text: &mut [u8],
    list: &mut [u8],
    work: &mut [u8],
    trail: &mut [usize; 102],
    st: &mut Progress,
    value: &mut Resolved,
    left: usize,
    at: usize,
)
    ensures { PositionalAt (env store.now (lent args.now places.now)) left at (world store.now text.old list.old work.old trail.old st.old) (world store.now text.new list.new work.new trail.new st.new) value.new.value value.new.end }
{
    let Some((n, start)) = read_u16(store, at) else {
        return;
    };
    let mut first = Value::Wrong;
    let mut p = start;
    for i in 0..n {
        inline::resolve(
            store, args, places, text, list, work, trail, st, value, left, p,
        );
        if i == 0 {
            first = value.value;
        }
        let Some(q) = skip_expression(store, p, left) else {
            return;
        };
        p = q;
    }
    value.hold(first);
    value.end = p;
}

// A call, its Id at `at`: its arguments are freed once its result, or that it is missing, is known.
#[cycle(write)]
pub(crate) fn function<'a>(
    store: &'a [u8],
    args: &'a [u8],
    places: &'a [usize; 256],
    text: &mut [u8],
    list: &mut [u8],
    work: &mut [u8],
    trail: &mut [usize; 102],
    st: &mut Progress,
    value: &mut Resolved,
    left: usize,
    at: usize,
)
    ensures { CalledAt (env store.now (lent args.now places.now)) left at (world store.now text.old list.old work.old trail.old st.old) (world store.now text.new list.new work.new trail.new st.new) value.new.found value.new.value }
{
    let Some((_, e)) = read_str(store, at) else {
        return;
    };
    let old = st.back;
    each(
        store, args, places, text, list, work, trail, st, value, left, e,
    );
    apply(store, work, st, value, at, old);
}

// A call, its Id at `at`, whose positional arguments are known, as the value and the end say: the named ones, and the answer. All are freed down to `old`.
pub(crate) fn apply(
    store: &[u8],
    work: &mut [u8],
    st: &mut Progress,
    value: &mut Resolved,
    at: usize,
    old: usize,
)
    ensures { AppliedAt store.now at work.old st.old value.old.value value.old.end old work.new st.new value.new.found value.new.value }
{
    if st.is_refused() {
        return;
    }
    let Some((a, e)) = read_str(store, at) else {
        return;
    };
    let base = st.back;
    let Some((m, named)) = read_u16(store, value.end) else {
        return;
    };
    resolve_named(store, work, st, named, m);
    if st.is_refused() {
        return;
    }
    answer(store, &*work, st, value, &store[a..e], named, m, base, old);
}

// A call whose arguments are known, the named ones from `base` down: NUMBER's result, or that the Id is no function's. They are freed down to `old`.
fn answer(
    store: &[u8],
    work: &[u8],
    st: &mut Progress,
    value: &mut Resolved,
    id: &[u8],
    named: usize,
    count: usize,
    base: usize,
    old: usize,
)
    ensures { AnswerAt store.now work.now st.old id.now named count base value.old.value old st.new value.new.found value.new.value }
{
    match find_holder(store, id) {
        Some(Holder::Function) => {
            let first = value.value;
            let v = number_function(store, work, st, named, count, base, first);
            st.set_back(old);
            value.hold(v);
        }
        Some(Holder::Message(_)) => {
            st.set_back(old);
            value.hold_missing();
        }
        Some(Holder::Term(_)) => {
            st.set_back(old);
            value.hold_missing();
        }
        None => {
            st.missing_function(old);
            value.hold_missing();
        }
    }
}
