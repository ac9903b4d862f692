// The order of byte strings.
#![tactic(auto)]

ghost use Rattle.std.specs.Prelude.{◌≡◌};
ghost use Rattle.order.specs.Order.{before};
ghost use Rattle.order.specs.Relations.Compared.{order_of};

use std::cmp::Ordering;

// Which of two byte strings is less: byte by byte, as numbers; of two that agree until one ends, that one.
#[tactic(auto, using(crate::proofs::Compared::order_same))]
pub fn compare(a: &[u8], b: &[u8]) -> Ordering
    ensures { result ≡ order_of a.now b.now }
{
    a.cmp(b)
}

// Is the first of two byte strings less?
pub fn is_before(a: &[u8], b: &[u8]) -> bool
    ensures { result ≡ before a.now b.now }
{
    a < b
}
