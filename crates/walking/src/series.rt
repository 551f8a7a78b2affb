// A line as a series: two hex digits a date, walked date by date along the tables.
ghost use Rattle.automaton.specs.Handed.{seen};
ghost use Rattle.walking.specs.Series.{AnswerIs};
ghost use Rattle.walking.specs.Walks.{Accepted};

use super::digits::Digits;
use super::lines::Answer;
use super::walkers::Walker;
use automaton::good::GoodTables;

// The most bytes of a series: two for each of 4,096 dates.
const DIGITS: usize = 8192;

// What the line is answered.
pub(crate) fn answer_line(tables: GoodTables, digits: &Digits, line: &[u8]) -> Answer
    ensures { AnswerIs (Accepted (seen tables.entry.tables)) line.now result }
{
    if line.len() % 2 == 1 || DIGITS < line.len() {
        return Answer::Bad;
    }
    let mut walker = Walker::begin(tables);
    for pair in line.chunks_exact(2) {
        let (Some(high), Some(low)) = (digits.value_of(pair[0]), digits.value_of(pair[1])) else {
            return Answer::Bad;
        };
        walker.move_by(high * 16 + low);
    }
    if walker.accepts() {
        Answer::Yes
    } else {
        Answer::No
    }
}
