// A call of NUMBER: its named options merged one after the other.
ghost use Rattle.std.specs.Prelude.{◌≡◌, List, [], ◌∷◌, ◌++◌, true, false, ℕ, ◌+◌, ◌-◌, ◌≤◌, length};
ghost use Rattle.std.proofs.Math.Option.{Option, some, none};
ghost use Rattle.decimals.specs.Decimal as NumbersOptions;
ghost use Rattle.decimals.specs.Relations.Shown.{shown_options};
ghost use Rattle.records.specs.Got.{got};
ghost use Rattle.records.specs.Tree.{Named};
ghost use Rattle.records.specs.Decode.{many, named_at};
ghost use Rattle.resolver.specs.Relations.Meets.{NamedIn, named_texts};
ghost use Rattle.resolver.specs.Relations.Leaves.{NumberAt};
ghost use Rattle.resolver.specs.Relations.Values.{MergedAt, merged_all};

use crate::scope::value::{read_named, taken};
use arguments::text_of;
use decimals::types::{Number, Options};
use literals::literal::read_literal;
use numbers::merge::{TooLong, merge_number, merge_text};
use refusals::Refusal;
use state::Progress;
use unescape::{has_backslash, unescaped_len};
use values::Value;

// Merges one option, whose text, if it is in the workspace, ends at `base`.
pub(crate) fn merge_one(
    s: &[u8],
    work: &[u8],
    from: usize,
    to: usize,
    tag: usize,
    a: usize,
    e: usize,
    base: usize,
    o: Options,
) -> Result<Options, TooLong>
    ensures { MergedAt s.now work.now from to tag a e base o result }
{
    let name = text_of(s, from, to);
    let src = text_of(s, a, e);
    if tag == 2 {
        let Some(n) = read_literal(src) else {
            return Ok(o);
        };
        return merge_number(name, n, o);
    }
    if !has_backslash(src) {
        return Ok(merge_text(name, src, o));
    }
    let n = unescaped_len(src);
    if base < n {
        return Ok(o);
    }
    Ok(merge_text(name, text_of(work, base - n, base), o))
}

// Merges the named arguments at `at`, whose texts end at `base` in the workspace.
pub(crate) fn merge_named(
    s: &[u8],
    work: &[u8],
    at: usize,
    count: usize,
    base: usize,
    options: Options,
) -> Result<Options, TooLong>
    ensures { (x : NumbersOptions.Options) (ns : Named) (f low : ℕ) → options ≡ shown_options x → many [] ◌∷◌ count named_at s.now at ≡ got ns f → NamedIn work.now low base ns → result ≡ merged_all (named_texts ns) x }
{
    let mut o = options;
    let mut p = at;
    let mut end = base;
    for _ in 0..count {
        let Some(n) = read_named(s, p) else {
            return Ok(o);
        };
        let e = n.end;
        o = merge_one(s, work, n.from, n.to, n.tag, n.start, e, end, o)?;
        let k = taken(s, n.tag, n.start, e);
        if end < k {
            return Ok(o);
        }
        end = end - k;
        p = e;
    }
    Ok(o)
}

// The Rust's NUMBER: a number first, else Error.
pub(crate) fn number_function(
    s: &[u8],
    work: &[u8],
    st: &mut Progress,
    at: usize,
    count: usize,
    base: usize,
    first: Value,
) -> Value
    ensures { NumberAt s.now work.now st.old at count base first st.new result }
{
    if st.is_refused() {
        return Value::Wrong;
    }
    match first {
        Value::Number(n) => {
            let o = n.options;
            match merge_named(s, work, at, count, base, o) {
                Ok(merged) => Value::Number(Number {
                    negative: n.negative,
                    digits: n.digits,
                    scale: n.scale,
                    options: merged,
                }),
                Err(TooLong) => {
                    st.refuse(Refusal::ManyDigits);
                    Value::Wrong
                }
            }
        }
        _ => Value::Wrong,
    }
}
