// The lines of the program's input, and what it prints.
ghost use Rattle.std.specs.Prelude.{◌≡◌, ◌+◌, ◌*◌, min, length};
ghost use Rattle.automaton.specs.Handed.{seen};
ghost use Rattle.walking.specs.Text.{counts_text, refused_text, fit_text, no_fit_text};
ghost use Rattle.walking.specs.Promises.{EndsAt, Answering, Carries, Puts};

use super::answering::lines_answered;
use super::texts::Text;
use answers::Refusal;
use automaton::Tables;
use meaning::Date;

pub const NEWLINE: u8 = b'\n';

// The bytes that are kept of a line that has not ended. With more than 8,192 it is no series, and with more than 1,024 no rule, whatever they are.
const LINE: usize = 8193;

// Room for words and two numbers.
const NUMBERS: usize = 64;

// What a line is answered: three words that are printed, so no Option<bool>, which would name none of them.
#[derive(Clone, Copy)]
pub enum Answer {
    Yes,
    No,
    // The line is no series, or one of too many dates.
    Bad,
}

// How far lines have been answered.
#[derive(Clone, Copy)]
pub struct Progress {
    // The place behind the last of them.
    pub at: usize,
    // Where the text of the answers ends.
    pub end: usize,
    // The number of the next line.
    pub number: u64,
}

// Where the line that begins at `from` ends: at the next newline, or where the bytes end. The length and no option where there is no newline, as
// `EndsAt` promises.
pub fn line_end(bytes: &[u8], from: usize) -> usize
    ensures { EndsAt bytes.now from result }
{
    if bytes.len() <= from {
        return bytes.len();
    }
    let newline = bytes[from..].iter().position(|&byte| byte == NEWLINE);
    newline.map_or(bytes.len(), |behind| from + behind)
}

// Answers the lines that have ended, as far as there is room: each answer's text stands behind the one before it. Refusal 10 for bad tables, or a
// place, an end or a number that is too high.
pub fn answer_lines(
    tables: Tables,
    bytes: &[u8],
    from: Progress,
    out: &mut [u8],
) -> Result<Progress, Refusal>
    ensures { Answering (seen tables.entry) bytes.now from out.old result out.new }
{
    let tables = tables.checked()?;
    if bytes.len() < from.at || out.len() < from.end {
        return Err(Refusal::BadTables);
    }
    // a line has a byte at least, so its number cannot come to more
    if u64::MAX - from.number < (bytes.len() - from.at) as u64 {
        return Err(Refusal::BadTables);
    }
    Ok(lines_answered(tables, bytes, from, out))
}

// Moves the line that begins at `at` and has not ended at `end` to the front, as much of it as can matter, and says how many bytes that is.
pub fn carry(bytes: &mut [u8], at: usize, end: usize) -> usize
    ensures { Carries bytes.old at end result bytes.new }
{
    let stop = end.min(bytes.len());
    if stop <= at {
        return 0;
    }
    let count = (stop - at).min(LINE);
    bytes.copy_within(at..at + count, 0);
    count
}

// How many states and edges a rule's tables have. As of each call here that puts a text, the answer is where the text ends, and 0 where there is no
// room, as `Puts` promises.
pub fn put_counts(out: &mut [u8], states: u64, edges: u64) -> usize
    ensures { Puts (counts_text states edges) 64 out.old result out.new }
{
    if out.len() < NUMBERS {
        return 0;
    }
    let mut text = Text { out, end: 0 };
    text.add_numbered(b"rule ", states);
    text.add_numbered(b" states ", edges);
    text.add(b" edges\n");
    text.end
}

// A refusal's number and place, and what is wanted there: 1 an operand, 2 an operator or closing parenthesis, 3 the second byte of `->`; any other
// number has no word.
pub fn put_refused(out: &mut [u8], number: u64, place: u64, wanted: u8) -> usize
    ensures { Puts (refused_text number place wanted) 64 out.old result out.new }
{
    if out.len() < NUMBERS {
        return 0;
    }
    let mut text = Text { out, end: 0 };
    text.add_numbered(b"refused ", number);
    text.add_numbered(b" ", place);
    text.add_wanted(wanted);
    text.end
}

// The fit that was found.
pub fn put_fit(out: &mut [u8], series: &[Date]) -> usize
    ensures { Puts (fit_text series.now) (10 + 2 * length series.now) out.old result out.new }
{
    if out.len() < 10 || (out.len() - 10) / 2 < series.len() {
        return 0;
    }
    let mut text = Text { out, end: 0 };
    text.add(b"fit ");
    text.add_dates(series);
    text.add(b"\n");
    text.end
}

// That nothing fits.
pub fn put_no_fit(out: &mut [u8]) -> usize
    ensures { Puts no_fit_text 9 out.old result out.new }
{
    if out.len() < 9 {
        return 0;
    }
    let mut text = Text { out, end: 0 };
    text.add(b"fit none\n");
    text.end
}
