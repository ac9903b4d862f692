// The trail: the patterns that are being resolved, by their positions in the store, and whether a pattern is among them.
//
// Each function takes every slice whatsoever. The bytes of a pattern are its length and as many as that says; where no length can be read there are
// none.
#![tactic(auto)]

ghost use Rattle.std.specs.Prelude.{◌≡◌, min};
ghost use Rattle.resolution.specs.Resolve.{on_trail};
ghost use Rattle.trail.specs.Relations.Trail.{pattern_bytes, trail_of};

use reader::{Sized, read_size};

// The most patterns of a trail.
const MAX_TRAIL: usize = 102;

// The bytes of the pattern at p: up to where its length says, or to the end of the slice.
#[tactic(auto, using(crate::proofs::Trail::pattern_in, crate::proofs::Trail::pattern_some, crate::proofs::Trail::pattern_none))]
fn pattern_of(s: &[u8], p: usize) -> &[u8]
    ensures { result.now ≡ pattern_bytes s.now p }
{
    let Sized { size, at, left } = read_size(s, p);
    match size {
        Some((n, _)) => &s[p..at + n.min(left)],
        None => &[],
    }
}

// `traveled.contains`: is the pattern at `at` among the first n of the trail? The last come first: one that stands on the trail stands near its end more often than not.
pub fn on_trail(s: &[u8], trail: &[usize; MAX_TRAIL], n: usize, at: usize) -> bool
    ensures { result ≡ on_trail (pattern_bytes s.now at) (trail_of s.now trail.now (min n 102)) }
{
    let pattern = pattern_of(s, at);
    let listed = &trail[..n.min(MAX_TRAIL)];
    listed.iter().rev().any(|p| pattern_of(s, *p) == pattern)
}
