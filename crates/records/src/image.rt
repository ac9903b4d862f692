// The head and the end of a resource image and of an arguments image.
ghost use Rattle.std.specs.Prelude.{◌≡◌, ◌+◌, eqb};
ghost use Rattle.records.specs.Got.{got, test};
ghost use Rattle.records.specs.Relations.Answer.{next_of};
ghost use Rattle.records.specs.Relations.Head.{head_at, head_of};

use crate::bytes::{read_u16, read_u32};
use crate::literal::check_one;
use crate::{Head, MAX_IMAGE};

// u32 whole length, version 1, u16 count.
pub fn read_head(s: &[u8], at: usize) -> Option<Head>
    ensures { result ≡ head_of (head_at s.now at) }
{
    let (size, p) = read_u32(s, at)?;
    if MAX_IMAGE < size {
        return None;
    }
    let q = check_one(s, p)?;
    let (count, from) = read_u16(s, q)?;
    Some(Head { size, count, from })
}

// Does what starts at `at` and is n bytes long end at e?
pub fn ends_at(at: usize, n: usize, e: usize) -> Option<usize>
    ensures { result ≡ next_of (test (eqb e (at + n)) (got e e)) }
{
    if at <= e {
        if e - at == n {
            return Some(e);
        }
    }
    None
}
