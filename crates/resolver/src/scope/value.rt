// Values: literals, named arguments, variables.
ghost use Rattle.std.specs.Prelude.{◌≡◌, List, [], ◌∷◌, ◌++◌, true, false, ℕ, ◌+◌, ◌-◌, ◌≤◌, max, length};
ghost use Rattle.std.proofs.Math.Option.{Option, some, none};
ghost use Rattle.literals.specs.Relations.Shown.{literal_of};
ghost use Rattle.records.specs.Got.{got};
ghost use Rattle.records.specs.Tree.{Named};
ghost use Rattle.records.specs.Decode.{many, named_at};
ghost use Rattle.resolution.specs.Effect.{State};
ghost use Rattle.records.specs.Names.{first_named};
ghost use Rattle.resolution.specs.Exec.{Limits, Machine};
ghost use Rattle.resolution.specs.Format.{values_of};
ghost use Rattle.resolver.specs.Relations.Meets.{world, env, Setup, Live, NamedIn, named_texts, lent};
ghost use Rattle.resolver.specs.Relations.Leaves.{LocalIs, variable_of, StringAt, NamedAt, NamedSet};
ghost use Rattle.arguments.specs.Relations.Given.{Within, meant, between};
ghost use Rattle.resolver.specs.Relations.Values.{literal_valued, TakenAt, LiteralAt, NamedReads, Ranged, value_of_some};
ghost use Rattle.state.specs.Setters.{held_s};

use arguments::{Given, find_argument, text_of};
use decimals::bytes::same_bytes;
use decimals::types::{Number, Options};
use literals::literal::read_literal;
use reader::read_marked;
use refusals::Refusal;
use state::Progress;
use unescape::{has_backslash, unescape_into, unescaped_len};
use values::Value;
use workspace::highest;
use writes::put::has_room;

// A named argument, by positions in the store: its name, and its literal's tag and bytes.
#[derive(Clone, Copy)]
pub(crate) struct NamedSpan {
    pub from: usize,
    pub to: usize,
    pub tag: usize,
    pub start: usize,
    pub end: usize,
}

// Reads a named argument.
pub(crate) fn read_named(s: &[u8], at: usize) -> Option<NamedSpan>
    ensures { NamedReads s.now at result }
{
    let row = read_marked(s, at);
    let (from, to) = row.first?;
    let (tag, _) = row.second?;
    let (start, end) = row.third?;
    Some(NamedSpan {
        from,
        to,
        tag,
        start,
        end,
    })
}

// A number literal's value; an error where it is none.
pub(crate) fn literal_number(s: &[u8], a: usize, e: usize) -> Value
    ensures { result ≡ literal_valued (literal_of (between s.now a e)) }
{
    let Some(n) = read_literal(text_of(s, a, e)) else {
        return Value::Wrong;
    };
    Value::Number(n)
}

// A string literal's value: a part of the store, or, where it has a backslash, a text in the workspace.
pub(crate) fn literal_string(
    s: &[u8],
    work: &mut [u8],
    st: &mut Progress,
    a: usize,
    e: usize,
) -> Value
    ensures { StringAt s.now a e work.old st.old work.new st.new result }
{
    if st.is_refused() {
        return Value::Wrong;
    }
    let src = text_of(s, a, e);
    if !has_backslash(src) {
        return Value::Store(a, e);
    }
    let n = unescaped_len(src);
    if !has_room(&*st, n, work.len()) {
        st.refuse(Refusal::ShortWorkspace);
        return Value::Wrong;
    }
    let back = st.back;
    let _ = unescape_into(src, work, back - n);
    keep(st, n, work.len());
    Value::Work(back - n, back)
}

// n bytes more are kept at the workspace's back, of `len` in all.
fn keep(st: &mut Progress, n: usize, len: usize)
    requires { (st.old.front + n ≤ st.old.back) × (st.old.back ≤ len) }
    ensures { st.new ≡ held_s (st.old.back - n) (max st.old.high (st.old.front + (len - (st.old.back - n)))) st.old }
{
    let back = st.back - n;
    let high = highest(st.high, st.front, back, len);
    st.set_held(back, high);
}

// Named arguments, in stored order: the texts of those with a backslash go to the workspace's back.
pub(crate) fn resolve_named(s: &[u8], work: &mut [u8], st: &mut Progress, at: usize, count: usize)
    ensures { NamedAt s.now at count work.old st.old work.new st.new }
{
    let mut p = at;
    for _ in 0..count {
        let Some(n) = read_named(s, p) else {
            return;
        };
        let e = n.end;
        if n.tag == 1 {
            literal_string(s, work, st, n.start, e);
        }
        p = e;
    }
}

// A term's named arguments are resolved, and are the local ones from here on. What it has on the stack is in no frame of the recursion.
#[inline(never)]
pub(crate) fn set_named(s: &[u8], work: &mut [u8], st: &mut Progress, at: usize, count: usize)
    ensures { NamedSet s.now at count work.old st.old work.new st.new }
{
    let base = st.back;
    resolve_named(s, work, st, at, count);
    st.set_locals(at, count, base);
}

// The bytes that a literal's text takes at the workspace's back.
pub(crate) fn taken(s: &[u8], tag: usize, a: usize, e: usize) -> usize
    ensures { TakenAt s.now tag a e result }
{
    if tag != 1 {
        return 0;
    }
    if e < a {
        return 0;
    }
    if s.len() < e {
        return 0;
    }
    if has_backslash(&s[a..e]) {
        return unescaped_len(&s[a..e]);
    }
    0
}

// The value of a literal whose text, if it is in the workspace, ends at `base`.
pub(crate) fn literal_at(s: &[u8], tag: usize, a: usize, e: usize, base: usize) -> Value
    ensures { LiteralAt s.now tag a e base result }
{
    if tag == 2 {
        return literal_number(s, a, e);
    }
    if e < a {
        return Value::Wrong;
    }
    if s.len() < e {
        return Value::Wrong;
    }
    if !has_backslash(&s[a..e]) {
        return Value::Store(a, e);
    }
    let n = unescaped_len(&s[a..e]);
    if base < n {
        return Value::Wrong;
    }
    Value::Work(base - n, base)
}

// A term's argument of a name: the first among the named arguments at `at`, whose texts end at `base` in the workspace.
pub(crate) fn find_local(
    s: &[u8],
    at: usize,
    count: usize,
    base: usize,
    name: &[u8],
) -> Option<Value>
    ensures { (a w : List ℕ) (low f : ℕ) (ns : Named) → many [] ◌∷◌ count named_at s.now at ≡ got ns f → NamedIn w low base ns → LocalIs s.now a w low result (first_named name.now (named_texts ns)) }
{
    let mut p = at;
    let mut end = base;
    for _ in 0..count {
        let Some(n) = read_named(s, p) else {
            return None;
        };
        let b = n.from;
        let q = n.to;
        let e = n.end;
        if same_bytes(&s[b..q], name) {
            return Some(literal_at(s, n.tag, n.start, e, end));
        }
        let k = taken(s, n.tag, n.start, e);
        if end < k {
            return None;
        }
        end = end - k;
        p = e;
    }
    None
}

// An argument as a value.
pub(crate) fn argument_value(found: Option<Given>) -> Option<Value>
    ensures { (i s w : List ℕ) (low : ℕ) → Within s found → Ranged (meant s found) → LocalIs i s w low result (value_of_some (meant s found)) }
{
    match found? {
        Given::Text(a, e) => Some(Value::Args(a, e)),
        Given::Number(negative, digits, scale) => Some(Value::Number(Number {
            negative,
            digits,
            scale,
            options: Options::default(),
        })),
        Given::Nothing => Some(Value::Nothing),
    }
}

// A variable: a term's argument where there are any, else the formatting's. A missing one is no Is.
pub(crate) fn find_variable(
    s: &[u8],
    args: &[u8],
    places: &[usize; 256],
    st: &Progress,
    name: &[u8],
) -> Option<Value>
    ensures { (u : Setup (env s.now (lent args.now places.now))) (x l w t : List ℕ) (L : Limits) (q : State) (k : Machine) → Live L (world s.now x l w t st.now) q k → LocalIs s.now args.now w st.now.back result (variable_of (values_of u.given) name.now q.locals) }
{
    if st.local {
        return find_local(s, st.local_at, st.local_count, st.local_base, name);
    }
    argument_value(find_argument(args, places, name))
}
