// A walk under way over good tables.
ghost use Rattle.walking.specs.Walks.{GoodWalk};

use super::Walk;
use super::edges::Passing;
use answers::Refusal;
use automaton::edges::edge_target;
use automaton::good::GoodTables;
use automaton::{StateNo, Tables};
use meaning::Date;

// The tables, and the walk, none of whose states is above theirs: no call on them is refused, and none looks at that again.
#[derive(Clone, Copy)]
pub(crate) struct Walker<'a> {
    pub(crate) tables: GoodTables<'a>,
    walk: Walk,
    ghost good: { GoodWalk tables.tables.states walk },
}

impl<'a> Walker<'a> {
    ghost use Rattle.std.specs.Prelude.{◌≡◌, ◌^◌, ◌<◌, length};
    ghost use Rattle.meaning.specs.Flags.{flags};
    ghost use Rattle.automaton.specs.Handed.{seen};
    ghost use Rattle.automaton.specs.Tables.{row_of};
    ghost use Rattle.automaton.specs.Walk.{moved, begun, answer, closed};
    ghost use Rattle.walking.specs.Walks.{mask};
    ghost use Rattle.walking.specs.Moving.{Added};
    ghost use Rattle.walking.specs.Resuming.{Resumed};

    // A walk begins with state 0 alone.
    pub(crate) fn begin(tables: GoodTables<'a>) -> Walker<'a>
        ensures tables { result.tables ≡ tables.entry }
        ensures walk { mask result.walk ≡ begun }
    {
        Walker {
            tables,
            walk: super::begin(),
        }
    }

    // A walk that goes on from where it was left; refusal 10 exactly for bad tables or a bad walk.
    pub(crate) fn resume(tables: Tables<'a>, walk: Walk) -> Result<Walker<'a>, Refusal>
        ensures { Resumed tables.entry walk result }
    {
        let tables = tables.checked()?;
        if !walk.is_within(tables.tables.states) {
            return Err(Refusal::BadTables);
        }
        Ok(Walker { tables, walk })
    }

    pub(crate) fn walk(&self) -> Walk
        ensures { result ≡ self.now.walk }
    {
        self.walk
    }

    // One date more: each state of the walk, and each of its edges, is looked at once.
    pub(crate) fn move_by(&mut self, date: Date)
        ensures tables { self.new.tables ≡ self.old.tables }
        ensures walk { mask self.new.walk ≡ moved flags (seen self.old.tables.tables) (mask self.old.walk) date }
    {
        // a walk without a state stays so, whatever the date
        if self.is_closed() {
            return;
        }
        let passing = Passing::on(date);
        let mut moved = Walk { low: 0, high: 0 };
        for state in self.walk.states() {
            moved = self.moved_along(state, passing, moved);
        }
        self.walk = moved;
    }

    // The walk with the states to which the date moves along the edges of the state's row.
    fn moved_along(&self, state: StateNo, passing: Passing, walk: Walk) -> Walk
        requires { mask walk < 2 ^ self.now.tables.tables.states }
        ensures { Added self.now.tables.tables.states (row_of (seen self.now.tables.tables) state.0) passing.date (mask walk) (length (row_of (seen self.now.tables.tables) state.0)) (mask result) }
    {
        let mut moved = walk;
        for &edge in self.tables.row(state) {
            moved = moved.with_if(edge_target(edge), passing.allowed_by(edge));
        }
        moved
    }

    // Whether a state of the walk accepts.
    pub(crate) fn accepts(&self) -> bool
        ensures { result ≡ answer (seen self.now.tables.tables) (mask self.now.walk) }
    {
        // by `any` it proves, but short lines were answered some 4 in 100 slower
        for state in self.walk.states() {
            if self.tables.accepts(state) {
                return true;
            }
        }
        false
    }

    // Whether no state is left.
    pub(crate) fn is_closed(&self) -> bool
        ensures { result ≡ closed (mask self.now.walk) }
    {
        self.walk.low == 0 && self.walk.high == 0
    }
}
