// What walks must be: refusal 10 exactly where they are not.
ghost use Rattle.laws.specs.Decided.{Decides};
ghost use Rattle.walking.specs.Walks.{GoodWalk};

use super::Walk;
use automaton::STATES;

impl Walk {
    // Whether each state of the walk is below the count.
    pub(crate) fn is_within(self, states: usize) -> bool
        ensures { Decides result (GoodWalk states self) }
    {
        if STATES <= states {
            return true;
        }
        if 64 <= states {
            return self.high >> (states - 64) == 0;
        }
        self.high == 0 && self.low >> states == 0
    }
}
