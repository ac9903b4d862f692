// Variables and results, written or as values.
ghost use Rattle.std.specs.Prelude.{◌≡◌, List, [], ◌∷◌, ◌++◌, true, false, ℕ, ◌+◌, ◌-◌, ◌≤◌, length};
ghost use Rattle.std.proofs.Math.Option.{Option, some, none};
ghost use Rattle.resolver.specs.Relations.Meets.{world, env, lent};
ghost use Rattle.resolver.specs.Relations.Leaves.{VariableAt, VariableValueAt, ResultAt};

use crate::scope::put::put_value;
use crate::scope::value::find_variable;
use arguments::text_of;
use state::Progress;
use texts::Referred;
use values::{Resolved, Value};
use writes::list::{list_reference, list_variable};
use writes::put::put_braced;

// A variable's text, or `{$n}`.
pub(crate) fn write_variable<'a>(
    store: &'a [u8],
    args: &'a [u8],
    places: &'a [usize; 256],
    text: &mut [u8],
    list: &mut [u8],
    work: &mut [u8],
    st: &mut Progress,
    a: usize,
    e: usize,
)
    ensures { (t : List ℕ) → VariableAt (env store.now (lent args.now places.now)) a e (world store.now text.old list.old work.old t st.old) (world store.now text.new list.new work.new t st.new) }
{
    let name = text_of(store, a, e);
    let Some(v) = find_variable(store, args, places, &*st, name) else {
        list_variable(list, st, name);
        put_braced(text, work, st, b"{$", name, b"}");
        return;
    };
    put_value(store, args, text, work, st, v);
}

// A variable's value, or Error.
pub(crate) fn resolve_variable(
    store: &[u8],
    args: &[u8],
    places: &[usize; 256],
    list: &mut [u8],
    st: &mut Progress,
    a: usize,
    e: usize,
) -> Value
    ensures { (x w t : List ℕ) → VariableValueAt (env store.now (lent args.now places.now)) a e (world store.now x list.old w t st.old) (world store.now x list.new w t st.new) result }
{
    let name = text_of(store, a, e);
    let Some(v) = find_variable(store, args, places, &*st, name) else {
        list_variable(list, st, name);
        return Value::Wrong;
    };
    v
}

// A function's result as text.
pub(crate) fn write_result<'a>(
    store: &'a [u8],
    args: &'a [u8],
    text: &mut [u8],
    list: &mut [u8],
    work: &mut [u8],
    st: &mut Progress,
    value: &Resolved,
    a: usize,
    e: usize,
)
    ensures { (t g : List ℕ) → ResultAt (env store.now (lent args.now g)) a e value.now.found value.now.value (world store.now text.old list.old work.old t st.old) (world store.now text.new list.new work.new t st.new) }
{
    let name = text_of(store, a, e);
    if value.found {
        match value.value {
            Value::Wrong => put_braced(text, work, st, name, b"()", b""),
            v => put_value(store, args, text, work, st, v),
        }
        return;
    }
    list_reference(list, st, Referred::Function, name, None);
    put_braced(text, work, st, b"{", name, b"()}");
}
