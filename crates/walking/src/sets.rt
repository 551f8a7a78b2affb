// A walk as a set of states.
ghost use Rattle.std.specs.Prelude.{◌≡◌, cond, ◌^◌, ◌<◌};
ghost use Rattle.std.specs.Int.Bits.{bit_or};
ghost use Rattle.walking.specs.Walks.{mask};

use super::Walk;
use automaton::StateNo;

impl Walk {
    // The walk with one state more, if it is wanted. A bit that may be 0 is laid in, since a branch on what dates allow is guessed wrong too often.
    pub(crate) fn with_if(self, state: StateNo, wanted: bool) -> Walk
        requires { state.0 < 128 }
        ensures { mask result ≡ cond wanted (bit_or (mask self) (2 ^ state.0)) (mask self) }
    {
        let number = state.0;
        let bit = u64::from(wanted);
        // the low word last: the compiler lays that arm at the head of the loop over edges, and few tables have more than 64 states
        if 64 <= number {
            Walk {
                low: self.low,
                high: self.high | (bit << (number - 64)),
            }
        } else {
            Walk {
                low: self.low | (bit << number),
                high: self.high,
            }
        }
    }

    // The states of the walk, from the lowest on.
    pub(crate) fn states(self) -> States
        ensures { result.left ≡ self }
    {
        States { left: self }
    }
}

// The states of a walk that have not been given yet. A walk of few states is gone through without a look at the others.
#[derive(Clone, Copy)]
pub(crate) struct States {
    left: Walk,
}

impl Iterator for States {
    ghost use Rattle.std.specs.Iterator.{at_most};
    ghost use Rattle.walking.specs.Moving.{GivesLowest};

    type Item = StateNo;

    ghost next_gives = { GivesLowest };

    ghost remaining = { λ s. at_most (mask s.left) };

    fn next(&mut self) -> Option<StateNo> {
        let Walk { low, high } = self.left;
        if low != 0 {
            self.left.low = low & (low - 1);
            return Some(StateNo(low.trailing_zeros() as usize));
        }
        if high != 0 {
            self.left.high = high & (high - 1);
            return Some(StateNo(64 + high.trailing_zeros() as usize));
        }
        None
    }
}
