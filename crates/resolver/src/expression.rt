// Expressions, written: an inline expression, or a select.
ghost use Rattle.resolver.specs.Relations.Meets.{world, env, lent};
ghost use Rattle.resolver.specs.Relations.Members.{ExpressionAt, SelectAt};

use crate::scope::select::choose;
use crate::{inline, pattern};
use records::read_byte;
use state::Progress;
use texts::Plain;
use values::Resolved;
use walks::skip_expression;
use writes::list::list_plain;

// `Expression::write`
#[cycle(write)]
pub(crate) fn write<'a>(
    store: &'a [u8],
    args: &'a [u8],
    places: &'a [usize; 256],
    text: &mut [u8],
    list: &mut [u8],
    work: &mut [u8],
    trail: &mut [usize; 102],
    st: &mut Progress,
    value: &mut Resolved,
    left: usize,
    at: usize,
)
    ensures { ExpressionAt (env store.now (lent args.now places.now)) left at (world store.now text.old list.old work.old trail.old st.old) (world store.now text.new list.new work.new trail.new st.new) }
{
    if st.is_refused() {
        return;
    }
    if left == 0 {
        return;
    }
    let Some((tag, p)) = read_byte(store, at) else {
        return;
    };
    if tag == 8 {
        select(
            store,
            args,
            places,
            text,
            list,
            work,
            trail,
            st,
            value,
            left - 1,
            p,
        );
        return;
    }
    inline::write(
        store, args, places, text, list, work, trail, st, value, left, at,
    );
}

// A select, past its tag: the selector's text is freed when its variant, or none, is chosen.
#[cycle(write)]
pub(crate) fn select<'a>(
    store: &'a [u8],
    args: &'a [u8],
    places: &'a [usize; 256],
    text: &mut [u8],
    list: &mut [u8],
    work: &mut [u8],
    trail: &mut [usize; 102],
    st: &mut Progress,
    value: &mut Resolved,
    left: usize,
    at: usize,
)
    ensures { SelectAt (env store.now (lent args.now places.now)) left at (world store.now text.old list.old work.old trail.old st.old) (world store.now text.new list.new work.new trail.new st.new) }
{
    if st.is_refused() {
        return;
    }
    let old = st.back;
    inline::resolve(
        store, args, places, text, list, work, trail, st, value, left, at,
    );
    if st.is_refused() {
        return;
    }
    st.set_back(old);
    let Some(q) = skip_expression(store, at, left) else {
        return;
    };
    let Some(to) = choose(store, args, &*work, &*value, q) else {
        list_plain(list, st, Plain::MissingDefault);
        return;
    };
    pattern::write(
        store, args, places, text, list, work, trail, st, value, left, to,
    );
}
