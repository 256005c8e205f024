// What the setters share: the bytes that a field needs, and the answer beside a layout.
#![tactic(auto)]

ghost use Rattle.std.specs.Prelude.{◌≡◌};
ghost use Rattle.layout.specs.Setters.{edited, bytes_for};

use answer::Answer;
use layout::{Edited, Layout, is_valid};

// The bytes that n bits need.
pub fn bytes_for(n: u32) -> usize
    ensures { result ≡ bytes_for n }
{
    n.div_ceil(8) as usize
}

pub fn done(layout: Layout) -> Edited
    ensures { result ≡ record { answer = Answer.Done 0; layout = layout } }
{
    Edited {
        answer: Answer::Done(0),
        layout,
    }
}

pub fn refused(layout: Layout) -> Edited
    ensures { result ≡ record { answer = Answer.Range; layout = layout } }
{
    Edited {
        answer: Answer::Range,
        layout,
    }
}

// Where the old layout is valid and the argument is allowed, the new layout; else RANGE and the old one.
pub fn changed(old: Layout, allowed: bool, new: Layout) -> Edited
    ensures { result ≡ edited old allowed new }
{
    if is_valid(old) && allowed {
        done(new)
    } else {
        refused(old)
    }
}
