// Calls that take tables: the two counts, the starts, the accept bytes and the edges. Bad tables or a bad walk are refused by 10.
ghost use Rattle.std.specs.Prelude.{◌≡◌};
ghost use Rattle.automaton.specs.Tables.{tables_of};
ghost use Rattle.automaton.specs.Handed.{seen};
ghost use Rattle.walking.specs.Answers.{Answered, Closed, Judged};
ghost use Rattle.calls.specs.Answers.{Saying};
ghost use Rattle.calls.specs.Promises.{Begins, StepsTo, FitCall};

use super::numbers::said;
use automaton::{Edge, Tables};
use meaning::Date;
use walking::Walk;

// The tables that C hands over in five parts.
fn handed<'a>(
    states: usize,
    edge_count: usize,
    starts: &'a [u16],
    accepts: &'a [u8],
    edges: &'a [Edge],
) -> Tables<'a>
    ensures { seen result ≡ tables_of states edge_count starts.now accepts.now edges.now }
{
    Tables {
        states,
        edge_count,
        starts,
        accepts,
        edges,
    }
}

// The tables' answer for a series: 1 yes, 0 no, or 10.
pub fn hourcricket_judge_tables(
    states: usize,
    edge_count: usize,
    starts: &[u16],
    accepts: &[u8],
    edges: &[Edge],
    series: &[Date],
) -> u8
    ensures { Saying (Judged (tables_of states edge_count starts.now accepts.now edges.now) series.now) result }
{
    let tables = handed(states, edge_count, starts, accepts, edges);
    said(walking::judge(tables, series))
}

// A walk begins with state 0. State q of a walk is bit q of low, or bit q - 64 of high.
pub fn hourcricket_walk_begin(low: &mut u64, high: &mut u64)
    ensures { Begins low.new high.new }
{
    let walk = walking::begin();
    *low = walk.low;
    *high = walk.high;
}

// Moves a walk by one date: 0, or 10 with the walk as it was.
pub fn hourcricket_walk_step(
    states: usize,
    edge_count: usize,
    starts: &[u16],
    accepts: &[u8],
    edges: &[Edge],
    low: &mut u64,
    high: &mut u64,
    date: Date,
) -> u8
    ensures { StepsTo (tables_of states edge_count starts.now accepts.now edges.now) low.old high.old date result low.new high.new }
{
    let tables = handed(states, edge_count, starts, accepts, edges);
    let mut walk = Walk {
        low: *low,
        high: *high,
    };
    match walking::step(tables, &mut walk, date) {
        Ok(()) => {
            *low = walk.low;
            *high = walk.high;
            0
        }
        Err(refusal) => u8::from(refusal),
    }
}

// Whether a state of the walk accepts: 1 yes, 0 no, or 10.
pub fn hourcricket_walk_answer(
    states: usize,
    edge_count: usize,
    starts: &[u16],
    accepts: &[u8],
    edges: &[Edge],
    low: u64,
    high: u64,
) -> u8
    ensures { Saying (Answered (tables_of states edge_count starts.now accepts.now edges.now) (record { low = low; high = high })) result }
{
    let tables = handed(states, edge_count, starts, accepts, edges);
    said(walking::answer(tables, Walk { low, high }))
}

// Whether the walk has no state left: 1 yes, 0 no, or 10.
pub fn hourcricket_walk_closed(
    states: usize,
    edge_count: usize,
    starts: &[u16],
    accepts: &[u8],
    edges: &[Edge],
    low: u64,
    high: u64,
) -> u8
    ensures { Saying (Closed (tables_of states edge_count starts.now accepts.now edges.now) (record { low = low; high = high })) result }
{
    let tables = handed(states, edge_count, starts, accepts, edges);
    said(walking::closed(tables, Walk { low, high }))
}

// Searches for the first of the shortest series that the tables accept: 1 with the fit at the front of the buffer and its number of dates, 0 where
// there is none, or 8 for fewer than 127 bytes, then 10. But for a fit all is as it was.
pub fn hourcricket_fit(
    states: usize,
    edge_count: usize,
    starts: &[u16],
    accepts: &[u8],
    edges: &[Edge],
    out: &mut [Date],
    dates: &mut usize,
) -> u8
    ensures { FitCall (tables_of states edge_count starts.now accepts.now edges.now) out.old dates.old result out.new dates.new }
{
    let tables = handed(states, edge_count, starts, accepts, edges);
    match walking::fit(tables, out) {
        Ok(Some(count)) => {
            *dates = count;
            1
        }
        Ok(None) => 0,
        Err(refusal) => u8::from(refusal),
    }
}
