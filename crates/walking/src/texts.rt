// Texts written into a lent slice, one behind the other. Not by `write!`: a formatter's contract leaves open whether a write succeeds, and the
// calls on texts promise (`Puts`) that it does wherever there is room.
ghost use Rattle.std.specs.Prelude.{◌≡◌, [], ◌∷◌, ◌+◌, ◌*◌, ◌≤◌, ◌<◌, length};
ghost use Rattle.walking.specs.Series.{hex_digit, series_text};
ghost use Rattle.walking.specs.Text.{decimal, answer_word, answer_text, numbered, wanted_word, dates_text, Written};
ghost use Rattle.walking.specs.Adding.{Adds};

use super::lines::Answer;
use itoa::Buffer;
use meaning::Date;

// What is wanted at the place of a refusal, by the numbers that its line is asked for.
const OPERAND: u8 = 1;

const OPERATOR: u8 = 2;

const ARROW: u8 = 3;

// The slice, and where what has been written ends.
#[derive(Drop)]
pub(crate) struct Text<'a> {
    pub out: &'a mut [u8],
    pub end: usize,
}

impl Text<'_> {
    pub(crate) fn add(&mut self, bytes: &[u8])
        requires { self.old.end + length bytes.now ≤ length self.old.out.now }
        ensures { Adds self.old bytes.now self.new }
    {
        let end = self.end + bytes.len();
        self.out[self.end..end].copy_from_slice(bytes);
        self.end = end;
    }

    // A number in decimal.
    fn add_number(&mut self, number: u64)
        requires { self.old.end + 20 ≤ length self.old.out.now }
        ensures added { Adds self.old (decimal number) self.new }
        ensures few { self.new.end ≤ self.old.end + 20 }
    {
        let mut digits = Buffer::new();
        self.add(digits.format(number).as_bytes());
    }

    fn add_answer_word(&mut self, answer: Answer)
        requires { self.old.end + 5 ≤ length self.old.out.now }
        ensures { Adds self.old (answer_word answer) self.new }
    {
        match answer {
            Answer::Yes => self.add(b" yes\n"),
            Answer::No => self.add(b" no\n"),
            Answer::Bad => self.add(b" bad\n"),
        }
    }

    // Words, and then a number.
    pub(crate) fn add_numbered(&mut self, words: &[u8], number: u64)
        requires { self.old.end + length words.now + 20 ≤ length self.old.out.now }
        ensures added { Adds self.old (numbered words.now number) self.new }
        ensures few { self.new.end ≤ self.old.end + length words.now + 20 }
    {
        self.add(words);
        self.add_number(number);
    }

    // The word of what is wanted, if its number has one, and the line's end. A number and no enum, as `put_refused` promises an answer for every one.
    pub(crate) fn add_wanted(&mut self, wanted: u8)
        requires { self.old.end + 10 ≤ length self.old.out.now }
        ensures { Adds self.old (wanted_word wanted) self.new }
    {
        match wanted {
            OPERAND => self.add(b" operand\n"),
            OPERATOR => self.add(b" operator\n"),
            ARROW => self.add(b" arrow\n"),
            _ => self.add(b"\n"),
        }
    }

    fn add_series(&mut self, series: &[Date])
        requires { self.old.end + 2 * length series.now ≤ length self.old.out.now }
        ensures { Adds self.old (series_text series.now) self.new }
    {
        for date in series {
            self.add(&[hex_digit(date / 16), hex_digit(date % 16)]);
        }
    }

    pub(crate) fn add_dates(&mut self, series: &[Date])
        requires { self.old.end + 5 + 2 * length series.now ≤ length self.old.out.now }
        ensures { Adds self.old (dates_text series.now) self.new }
    {
        if series.is_empty() {
            self.add(b"empty");
        } else {
            self.add_series(series);
        }
    }
}

// A series' number and its answer, from a place on, which comes in as a number (`Progress`); says where they end.
pub(crate) fn put_answer(out: &mut [u8], at: usize, number: u64, answer: Answer) -> usize
    requires { at + 25 ≤ length out.old }
    ensures { Written out.old at (answer_text number answer) result out.new }
{
    let mut text = Text { out, end: at };
    text.add_number(number);
    text.add_answer_word(answer);
    text.end
}

// The lowercase hex digit of a value.
pub(crate) fn hex_digit(value: u8) -> u8
    requires { value < 16 }
    ensures { result ≡ hex_digit value }
{
    if value < 10 {
        b'0' + value
    } else {
        b'a' + (value - 10)
    }
}
