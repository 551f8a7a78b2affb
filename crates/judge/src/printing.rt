// What the program prints beside the answers. Not by `write!`: a formatter's contract leaves open what is written, and the texts are promised (`Puts`).
ghost use Rattle.answers.specs.Refusals.{number_of as number_of_build};
ghost use Rattle.reading.specs.Promise.{number_of, place_of, wanted_of, wanted_number};
ghost use Rattle.walking.specs.Text.{refused_text};
ghost use Rattle.walking.specs.Promises.{Puts};

use super::streams::Streams;
use automaton::good::GoodTables;
use meaning::Date;
use std::io;
use walking::DATES;
use walking::lines::{put_counts, put_fit, put_no_fit, put_refused};

// The line of a refused text: why and where, and what is wanted there.
fn put_refusal(out: &mut [u8], refusal: reading::Refusal) -> usize
    ensures { Puts (refused_text (number_of refusal) (place_of refusal) (wanted_number (wanted_of refusal))) 64 out.old result out.new }
{
    put_refused(
        out,
        u64::from(refusal.number()),
        refusal.place().0 as u64,
        refusal.wanted_number(),
    )
}

// The line of a refused build: place 0, and no word.
fn put_build_refusal(out: &mut [u8], refusal: answers::Refusal) -> usize
    ensures { Puts (refused_text (number_of_build refusal) 0 0) 64 out.old result out.new }
{
    put_refused(out, u64::from(u8::from(refusal)), 0, 0)
}

impl Streams<'_> {
    pub(crate) fn print_refusal(&mut self, refusal: reading::Refusal) -> io::Result<()> {
        let end = put_refusal(&mut self.out, refusal);
        self.write(end)
    }

    pub(crate) fn print_build_refusal(&mut self, refusal: answers::Refusal) -> io::Result<()> {
        let end = put_build_refusal(&mut self.out, refusal);
        self.write(end)
    }

    // How many states and edges the tables have.
    pub(crate) fn print_counts(&mut self, tables: GoodTables) -> io::Result<()> {
        let end = put_counts(
            &mut self.out,
            tables.tables.states as u64,
            tables.tables.edge_count as u64,
        );
        self.write(end)
    }

    // The first fit, or that there is none.
    pub(crate) fn print_fit(&mut self, tables: GoodTables) -> io::Result<()> {
        let mut dates: [Date; DATES] = [0; DATES];
        // not refused: the tables are good, and the slice has room for the longest fit
        let end = match walking::fit(tables.tables, &mut dates).unwrap() {
            Some(count) => put_fit(&mut self.out, &dates[..count]),
            None => put_no_fit(&mut self.out),
        };
        self.write(end)
    }
}
