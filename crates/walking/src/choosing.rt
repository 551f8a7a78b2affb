// The dates of the fit, forwards: each is the least with which a state of the walk gets one date nearer.
ghost use Rattle.std.specs.Prelude.{◌≡◌, ◌≤◌, ◌<◌, length};
ghost use Rattle.meaning.specs.Flags.{flags};
ghost use Rattle.automaton.specs.Tables.{target, row_of};
ghost use Rattle.automaton.specs.Handed.{seen};
ghost use Rattle.automaton.specs.Column.{never};
ghost use Rattle.automaton.specs.Search.{next_date};
ghost use Rattle.walking.specs.Walks.{mask};
ghost use Rattle.walking.specs.Choosing.{edge_date, row_date, Chosen, Written};

use super::walkers::Walker;
use automaton::edges::{edge_present, edge_target};
use automaton::good::GoodTables;
use automaton::{Edge, StateNo};
use meaning::{Date, DatePlace, FLAGS};

// One above every date: no date. A number, as the definitions of the search have it (`next_date`, which the fit's laws are about): an option would have to
// be told apart from that number in each clause.
const TOP: u32 = 1 << FLAGS;

// The least date along an edge to a state with the count; no date along any other.
fn edge_date(edge: Edge, counts: &[u16], count: u16) -> u32
    requires { target flags edge < length counts.now }
    ensures { result ≡ edge_date counts.now count edge }
{
    if counts[edge_target(edge).0] == count {
        u32::from(edge_present(edge))
    } else {
        TOP
    }
}

// The least date along an edge of the state's row to a state with the count.
fn row_date(tables: &GoodTables, state: StateNo, counts: &[u16], count: u16) -> u32
    requires { tables.now.tables.states ≤ length counts.now }
    ensures { result ≡ row_date (row_of (seen tables.now.tables) state.0) counts.now count (length (row_of (seen tables.now.tables) state.0)) }
{
    let mut least = TOP;
    for &edge in tables.row(state) {
        least = least.min(edge_date(edge, counts, count));
    }
    least
}

// The least date with which a state of the walk gets to one with the count.
fn next_date(walker: &Walker, counts: &[u16], count: u16) -> u32
    requires { walker.now.tables.tables.states ≤ length counts.now }
    ensures { result ≡ next_date flags (seen walker.now.tables.tables) counts.now count (mask walker.now.walk) }
{
    let mut least = TOP;
    for state in walker.walk().states() {
        least = least.min(row_date(&walker.tables, state, counts, count));
    }
    least
}

// Writes the fit of so many dates to the front of the buffer.
pub(crate) fn write_fit(tables: GoodTables, counts: &[u16], dates: usize, out: &mut [Date])
    requires { (tables.tables.states ≤ length counts.now) × (dates ≤ length out.old) × (dates < never) × Chosen (seen tables.tables) counts.now dates }
    ensures { Written (seen tables.entry.tables) counts.now dates out.old out.new }
{
    let mut walker = Walker::begin(tables);
    for at in 0..dates {
        let place = DatePlace(at);
        let left = (dates - place.0 - 1) as u16;
        let date = next_date(&walker, counts, left) as Date;
        out[place.0] = date;
        walker.move_by(date);
    }
}
