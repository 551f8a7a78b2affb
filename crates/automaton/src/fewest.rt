// The fewest dates from each state to an accepting one, by rounds: after round r every count up to r is known. The counts stand beside the tables,
// and no struct holds both, since they are lent by whoever asks for them.
ghost use Rattle.std.specs.Prelude.{◌≡◌, ◌≤◌, ◌<◌, eqb, length, get_or};
ghost use Rattle.std.specs.List.{list_any};
ghost use Rattle.meaning.specs.Flags.{flags};
ghost use Rattle.automaton.specs.Tables.{target, row_of};
ghost use Rattle.automaton.specs.Handed.{seen};
ghost use Rattle.automaton.specs.Column.{never, Filled};
ghost use Rattle.automaton.specs.Rounds.{first_column, next_column, next_entry, column};

use super::StateNo;
use super::edges::edge_target;
use super::good::GoodTables;
use answers::Refusal;

// The count of a state that accepts nothing. A number, since the counts stand in a lent slice, and the definitions of what is left there name it.
pub const NEVER: u16 = 65535;

impl GoodTables<'_> {
    // The fewest dates from each state to an accepting one, at the front of the slice, where it has room; else nothing.
    pub fn fewest(&self, counts: &mut [u16]) -> Result<(), Refusal>
        ensures { Filled (seen self.now.tables) counts.old counts.new result }
    {
        let states = self.tables.states;
        if counts.len() < states {
            return Err(Refusal::ShortSlice);
        }
        self.fill_counts(&mut counts[..states]);
        Ok(())
    }

    // The true counts.
    fn fill_counts(&self, counts: &mut [u16])
        requires { length counts.old ≡ self.now.tables.states }
        ensures { counts.new ≡ column flags (seen self.now.tables) }
    {
        self.start_counts(counts);
        for round in 0..self.tables.states {
            self.count_round(round as u16, counts);
        }
    }

    // 0 for each accepting state.
    fn start_counts(&self, counts: &mut [u16])
        requires { length counts.old ≡ self.now.tables.states }
        ensures { counts.new ≡ first_column (seen self.now.tables) }
    {
        for (state, count) in counts.iter_mut().enumerate() {
            *count = if self.accepts(StateNo(state)) {
                0
            } else {
                NEVER
            };
        }
    }

    // One round, in place: it asks only which counts are `round`, and changes none of these.
    fn count_round(&self, round: u16, counts: &mut [u16])
        requires { (length counts.old ≡ self.now.tables.states) × (round < never) }
        ensures { counts.new ≡ next_column flags (seen self.now.tables) round counts.old }
    {
        // by index, since each count is made from the whole array that it is written to
        for state in 0..counts.len() {
            counts[state] = self.next_count(StateNo(state), round, counts);
        }
    }

    // A state's count after a round.
    fn next_count(&self, state: StateNo, round: u16, counts: &[u16]) -> u16
        requires { (length counts.now ≡ self.now.tables.states) × (state.0 < self.now.tables.states) × (round < never) }
        ensures { result ≡ next_entry flags (seen self.now.tables) round counts.now state.0 }
    {
        let count = counts[state.0];
        if count == NEVER && self.leads_to(state, round, counts) {
            round + 1
        } else {
            count
        }
    }

    // Whether an edge of the state's row leads to a state with the count.
    fn leads_to(&self, state: StateNo, count: u16, counts: &[u16]) -> bool
        requires { self.now.tables.states ≤ length counts.now }
        ensures { result ≡ list_any (λ edge. eqb (get_or counts.now (target flags edge) 0) count) (row_of (seen self.now.tables) state.0) }
    {
        // by `any` it proves too, but the loop that comes of it has its end's test at its head, and took longer
        for &edge in self.row(state) {
            if counts[edge_target(edge).0] == count {
                return true;
            }
        }
        false
    }
}
