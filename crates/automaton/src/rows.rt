// What a walk asks of good tables: the edges that leave a state, and whether it accepts.
ghost use Rattle.std.specs.Prelude.{◌≡◌, ◌<◌, All};
ghost use Rattle.meaning.specs.Flags.{flags};
ghost use Rattle.automaton.specs.Handed.{seen};
ghost use Rattle.automaton.specs.Tables.{target, row_of, accepts};

use super::good::GoodTables;
use super::{Edge, StateNo};

impl<'a> GoodTables<'a> {
    // The edges of a state's row; none for a number that is no state's.
    #[inline]
    pub fn row(&self, state: StateNo) -> &'a [Edge]
        ensures row { result.now ≡ row_of (seen self.now.tables) state.0 }
        ensures leading { All (λ edge. target flags edge < self.now.tables.states) result.now }
    {
        let tables = self.tables;
        if tables.states <= state.0 {
            return &[];
        }
        let first = usize::from(tables.starts[state.0]);
        let end = usize::from(tables.starts[state.0 + 1]);
        &tables.edges[first..end]
    }

    // Whether a state accepts; no for a number that is no state's.
    #[inline]
    pub fn accepts(&self, state: StateNo) -> bool
        ensures { result ≡ accepts (seen self.now.tables) state.0 }
    {
        state.0 < self.tables.states && self.tables.accepts[state.0] == 1
    }
}
