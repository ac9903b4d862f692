// The scope is lent down the whole formatting: a few thin functions over one that takes it by value and hands it back. Under that one its parts stand
// among those of `Progress`, which is lent beside it, so that no frame of a formatting holds a copy.
ghost use Rattle.std.specs.Prelude.{◌≡◌};
ghost use Rattle.state.specs.Progress.{scope_of, scoped_s};
ghost use Rattle.state.specs.Setters.{new_s};
ghost use Rattle.resolver.specs.Relations.Meets.{world, env, lent};
ghost use Rattle.resolver.specs.Relations.Members.{PatternAt};

use crate::pattern;
use state::{Progress, Scope};
use values::Resolved;

// `Pattern::write`, by value.
pub(crate) fn write_by_value<'a>(
    store: &'a [u8],
    args: &'a [u8],
    places: &'a [usize; 256],
    text: &mut [u8],
    list: &mut [u8],
    work: &mut [u8],
    trail: &mut [usize; 102],
    st: &mut Progress,
    value: &mut Resolved,
    scope: Scope,
    left: usize,
    at: usize,
) -> Scope
    ensures { PatternAt (env store.now (lent args.now places.now)) left at (world store.now text.old list.old work.old trail.old (scoped_s scope st.old)) (world store.now text.new list.new work.new trail.new st.new) × (result ≡ scope_of st.new) }
{
    st.set_scope(scope);
    pattern::write(
        store, args, places, text, list, work, trail, st, value, left, at,
    );
    st.scope()
}

// `Pattern::write`
pub(crate) fn write<'a>(
    store: &'a [u8],
    args: &'a [u8],
    places: &'a [usize; 256],
    text: &mut [u8],
    list: &mut [u8],
    work: &mut [u8],
    trail: &mut [usize; 102],
    st: &mut Progress,
    value: &mut Resolved,
    scope: &mut Scope,
    left: usize,
    at: usize,
)
    ensures { PatternAt (env store.now (lent args.now places.now)) left at (world store.now text.old list.old work.old trail.old (scoped_s scope.old st.old)) (world store.now text.new list.new work.new trail.new st.new) × (scope.new ≡ scope_of st.new) }
{
    *scope = write_by_value(
        store, args, places, text, list, work, trail, st, value, *scope, left, at,
    );
}

// `Pattern::resolve`, at a scope of its own: it is made here, lent down the whole formatting of the pattern at q, and handed on as it is then.
pub(crate) fn resolve<'a>(
    store: &'a [u8],
    args: &'a [u8],
    places: &'a [usize; 256],
    text: &mut [u8],
    list: &mut [u8],
    work: &mut [u8],
    trail: &mut [usize; 102],
    st: &mut Progress,
    value: &mut Resolved,
    q: usize,
) -> Scope
    ensures { PatternAt (env store.now (lent args.now places.now)) 32 q (world store.now text.old list.old work.old trail.old (scoped_s (scope_of (new_s 0)) st.old)) (world store.now text.new list.new work.new trail.new st.new) × (result ≡ scope_of st.new) }
{
    let mut scope = Scope::new();
    write(
        store, args, places, text, list, work, trail, st, value, &mut scope, 32, q,
    );
    scope
}
