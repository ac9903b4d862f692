// Choosing a variant by a value, wherever its text lies.
ghost use Rattle.std.specs.Prelude.{◌≡◌, ℕ};
ghost use Rattle.numbers.specs.Value as values;
ghost use Rattle.records.specs.Got.{got};
ghost use Rattle.records.specs.Images.{Store, store_of};
ghost use Rattle.resolution.specs.Resolve.{chosen};
ghost use Rattle.variants.specs.Relations.Pick.{PickAt};
ghost use Rattle.resolver.specs.Relations.Meets.{Holds};

use crate::scope::put::text_in;
use arguments::text_of;
use heads::locale_of;
use values::{Resolved, Value};
use variants::{choose_default, choose_number, choose_text};

// The pattern of the variant that a value chooses among those at `at`. None and an error match no key. What it has on the stack is in no frame of the recursion.
#[inline(never)]
pub(crate) fn choose<'a>(
    s: &'a [u8],
    args: &'a [u8],
    work: &[u8],
    value: &Resolved,
    at: usize,
) -> Option<usize>
    ensures { (v : values.Value) (low : ℕ) (st : Store) (e : ℕ) → Holds s.now args.now work.now low value.now.value v → store_of s.now ≡ got st e → PickAt s.now at (chosen st.locale v) result }
{
    let c = value.value;
    match c {
        Value::Work(a, e) => choose_text(s, at, text_of(work, a, e)),
        Value::Number(n) => choose_number(s, at, locale_of(s), n),
        Value::Nothing => choose_default(s, at),
        Value::Wrong => choose_default(s, at),
        _ => choose_text(s, at, text_in(s, args, c)),
    }
}
