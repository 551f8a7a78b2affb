// What tables must be: refusal 10 exactly where they are not.
ghost use Rattle.std.specs.Prelude.{◌≤◌, ◌<◌, length};
ghost use Rattle.laws.specs.Decided.{Decides};
ghost use Rattle.meaning.specs.Flags.{flags};
ghost use Rattle.automaton.specs.Tables.{Good};
ghost use Rattle.automaton.specs.Handed.{seen};
ghost use Rattle.automaton.specs.Valid.{Within, Spanning, Bits, Leading};
ghost use Rattle.automaton.specs.Checking.{Checked};

use super::edges::{edge_absent, edge_present, edge_target};
use super::good::GoodTables;
use super::{EDGES, STATES, Tables};
use answers::Refusal;

impl<'a> Tables<'a> {
    // All parts of the test.
    fn pass(&self) -> bool
        ensures { Decides result (Good flags (seen self.now)) }
    {
        self.counts_fit() && self.starts_rise() && self.accepts_are_bits() && self.edges_lead()
    }

    fn counts_fit(&self) -> bool
        ensures { Decides result (Within (seen self.now)) }
    {
        0 < self.states
            && self.states <= STATES
            && self.states < self.starts.len()
            && self.states <= self.accepts.len()
            && self.edge_count <= EDGES
            && self.edge_count <= self.edges.len()
    }

    // From 0 to the count of the edges.
    fn starts_rise(&self) -> bool
        requires { self.now.states < length self.now.starts.now }
        ensures { Decides result (Spanning (seen self.now)) }
    {
        let starts = &self.starts[..=self.states];
        starts[0] == 0 && usize::from(starts[self.states]) == self.edge_count && starts.is_sorted()
    }

    fn accepts_are_bits(&self) -> bool
        requires { self.now.states ≤ length self.now.accepts.now }
        ensures { Decides result (Bits self.now.states self.now.accepts.now) }
    {
        self.accepts[..self.states]
            .iter()
            .all(|&accept| accept <= 1)
    }

    // Each edge is fair and leads to a state.
    fn edges_lead(&self) -> bool
        requires { self.now.edge_count ≤ length self.now.edges.now }
        ensures { Decides result (Leading self.now.states self.now.edge_count self.now.edges.now) }
    {
        self.edges[..self.edge_count].iter().all(|&edge| {
            edge_present(edge) & edge_absent(edge) == 0 && edge_target(edge).0 < self.states
        })
    }

    // The tables, known to be good; refusal 10 exactly where they are not.
    pub fn checked(self) -> Result<GoodTables<'a>, Refusal>
        ensures { Checked self.entry result }
    {
        if self.pass() {
            Ok(GoodTables { tables: self })
        } else {
            Err(Refusal::BadTables)
        }
    }
}
