// Tables as an automaton, whoever made them: their format, what makes them good, and the fewest dates to an accepting state. What they accept, and
// how they are walked and searched, stands in specs/.
#![tactic(auto)]

ghost use Rattle.laws.specs.Decided.{Decides};
ghost use Rattle.meaning.specs.Flags.{flags};
ghost use Rattle.automaton.specs.Tables.{Good};
ghost use Rattle.automaton.specs.Handed.{seen};
ghost use Rattle.automaton.specs.Column.{Filled};

use answers::Refusal;

pub mod edges;
pub mod fewest;
pub mod good;
mod rows;
mod valid;

// What must be present, what must be absent, and the target, from the low bits up.
pub type Edge = u32;

// The most states, and the most edges, of tables.
pub const STATES: usize = 128;

pub const EDGES: usize = 8192;

// A state's number.
#[derive(Clone, Copy, PartialEq, Eq)]
pub struct StateNo(pub usize);

// Tables as they are handed in: two counts, and the lent slices. Entries past the counts are not looked at.
#[derive(Clone, Copy)]
pub struct Tables<'a> {
    pub states: usize,
    pub edge_count: usize,
    pub starts: &'a [u16],
    pub accepts: &'a [u8],
    pub edges: &'a [Edge],
}

impl Tables<'_> {
    // Whether the tables are good. A call for users, as `fewest` below; no crate here makes them, and docs/STATEMENTS.md promises both.
    pub fn are_good(&self) -> bool
        ensures { Decides result (Good flags (seen self.now)) }
    {
        self.checked().is_ok()
    }

    // The fewest dates from each state to an accepting one, at the front of the slice, where the tables are good and the slice has room; else nothing.
    pub fn fewest(self, counts: &mut [u16]) -> Result<(), Refusal>
        ensures { Filled (seen self.entry) counts.old counts.new result }
    {
        self.checked()?.fewest(counts)
    }
}
