// Walking over tables: which states a series may be in, what the tables answer for it, and the first of the shortest series that fit. Every public
// call tests the tables that it is handed once, before it looks at a date.
#![tactic(auto)]

mod answering;
mod choosing;
mod digits;
mod edges;
pub mod lines;
mod series;
mod sets;
mod texts;
mod valid;
mod walkers;

ghost use Rattle.std.specs.Prelude.{◌≡◌};
ghost use Rattle.automaton.specs.Walk.{begun};
ghost use Rattle.automaton.specs.Handed.{seen};
ghost use Rattle.walking.specs.Walks.{walk_of};
ghost use Rattle.walking.specs.FitAnswers.{Searched};
ghost use Rattle.walking.specs.Answers.{Stepped, Answered, Closed, Judged};

use answers::Refusal;
use automaton::fewest::NEVER;
use automaton::{STATES, Tables};
use choosing::write_fit;
use meaning::Date;
use walkers::Walker;

// A set of states: state q is bit q of `low`, or bit q - 64 of `high`. Two words, as C lends them: it has no number of 128 bits.
#[derive(Clone, Copy, PartialEq, Eq)]
pub struct Walk {
    pub low: u64,
    pub high: u64,
}

// A walk begins with state 0 alone.
pub fn begin() -> Walk
    ensures { result ≡ walk_of begun }
{
    Walk { low: 1, high: 0 }
}

// Moves the walk by one date more; refused, it is as it was.
pub fn step(tables: Tables, walk: &mut Walk, date: Date) -> Result<(), Refusal>
    ensures { Stepped (seen tables.entry) walk.old date walk.new result }
{
    let mut walker = Walker::resume(tables, *walk)?;
    walker.move_by(date);
    *walk = walker.walk();
    Ok(())
}

// Whether a state of the walk accepts.
pub fn answer(tables: Tables, walk: Walk) -> Result<bool, Refusal>
    ensures { Answered (seen tables.entry) walk result }
{
    let walker = Walker::resume(tables, walk)?;
    Ok(walker.accepts())
}

// Whether no state is left.
pub fn closed(tables: Tables, walk: Walk) -> Result<bool, Refusal>
    ensures { Closed (seen tables.entry) walk result }
{
    let walker = Walker::resume(tables, walk)?;
    Ok(walker.is_closed())
}

// The tables' answer for a series.
pub fn judge(tables: Tables, series: &[Date]) -> Result<bool, Refusal>
    ensures { Judged (seen tables.entry) series.now result }
{
    let mut walker = Walker::begin(tables.checked()?);
    for &date in series {
        walker.move_by(date);
    }
    Ok(walker.accepts())
}

// ---- the fit

// No fit is longer: one date less than the most states.
pub const DATES: usize = STATES - 1;

// How many dates the first fit has, which stands at the front of the buffer; the bytes after it, and without a fit all bytes, stay.
pub fn fit(tables: Tables, out: &mut [Date]) -> Result<Option<usize>, Refusal>
    ensures { Searched (seen tables.entry) out.old out.new result }
{
    if out.len() < DATES {
        return Err(Refusal::ShortSlice);
    }
    let good = tables.checked()?;
    let mut counts = [NEVER; STATES];
    // not refused: the counts have room for every state
    good.fewest(&mut counts)?;
    let count = counts[0];
    if count == NEVER {
        return Ok(None);
    }
    let dates = usize::from(count);
    write_fit(good, &counts, dates, out);
    Ok(Some(dates))
}
