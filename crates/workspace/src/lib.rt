// The workspace figure: the most bytes of the workspace that were in use at a time.
#![tactic(auto)]

ghost use Rattle.std.specs.Prelude.{◌≡◌};
ghost use Rattle.workspace.specs.Use.{highest_now};

// The higher of the use so far and the use now, of a workspace of `len` bytes: those before its front, of the texts being made, and those from its back on, of the
// finished ones. Where front and back are no such places, the use so far.
pub fn highest(high: usize, front: usize, back: usize, len: usize) -> usize
    ensures { result ≡ highest_now high front back len }
{
    if back < front {
        return high;
    }
    if len < back {
        return high;
    }
    let used = front + (len - back);
    if high < used {
        return used;
    }
    high
}
