// Lines answered one after the other, on good tables.
ghost use Rattle.std.specs.Prelude.{◌+◌, ◌^◌, ◌≤◌, ◌<◌, length};
ghost use Rattle.automaton.specs.Handed.{seen};
ghost use Rattle.walking.specs.Walks.{Accepted};
ghost use Rattle.walking.specs.Promises.{Ready, Takes};
ghost use Rattle.walking.specs.Answering.{TakesLine};

use super::digits::Digits;
use super::lines::{Progress, line_end};
use super::series::answer_line;
use super::texts::put_answer;
use automaton::good::GoodTables;

// The most bytes that an answer takes.
const ANSWER: usize = 25;

// Answers the line up to, not including, `stop`, where its newline is.
fn line_answered(
    tables: GoodTables,
    digits: &Digits,
    bytes: &[u8],
    from: Progress,
    stop: usize,
    out: &mut [u8],
) -> Progress
    requires { (from.at ≤ stop) × (stop < length bytes.now) × (from.end + 25 ≤ length out.old) × (from.number + 1 < 2 ^ 64) }
    ensures { TakesLine (Accepted (seen tables.entry.tables)) bytes.now from stop out.old result out.new }
{
    let answer = answer_line(tables, digits, &bytes[from.at..stop]);
    Progress {
        at: stop + 1,
        end: put_answer(out, from.end, from.number, answer),
        number: from.number + 1,
    }
}

// Answers the lines that have ended, up to the first for which there may be no room.
pub(crate) fn lines_answered(
    tables: GoodTables,
    bytes: &[u8],
    from: Progress,
    out: &mut [u8],
) -> Progress
    requires { Ready (seen tables.tables) bytes.now from out.old }
    ensures { Takes (Accepted (seen tables.entry.tables)) bytes.now from out.old result out.new }
{
    let digits = Digits::new();
    let mut progress = from;
    // no `for`, which is no plainer here: each turn begins where the line before it ended, and the last is cut off for want of room or of a line
    while ANSWER <= out.len() - progress.end {
        let stop = line_end(bytes, progress.at);
        if stop == bytes.len() {
            return progress;
        }
        progress = line_answered(tables, &digits, bytes, progress, stop, out);
    }
    progress
}
