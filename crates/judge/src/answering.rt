// The series of the input, chunk by chunk.
ghost use Rattle.std.specs.Prelude.{◌≡◌, ◌+◌, ◌^◌, ◌≤◌, ◌<◌, IfOk};
ghost use Rattle.judge.specs.declared.streams.TheConstants.{BUFFER};

use super::streams::{Input, READS, Streams};
use automaton::good::GoodTables;
use std::io;
use walking::lines::{NEWLINE, Progress, answer_lines, carry};

impl Streams<'_> {
    // Answers the lines that have ended among the chunk's first `count` bytes.
    fn answer_ended(
        &mut self,
        tables: GoodTables,
        count: usize,
        from: Progress,
    ) -> io::Result<Progress>
        requires { (from.at ≤ count) × (count ≤ BUFFER) × (from.end ≡ 0) × (from.number + count < 2 ^ 64 + from.at) }
        ensures { IfOk result (λ to. (to.end ≡ 0) × (to.number ≤ from.number + count)) }
    {
        let mut progress = from;
        // no `for`, which is no plainer here: each turn begins where the one before it ended, and the last has no answer
        loop {
            // not refused: the tables are good, `at` is a place among the `count` bytes, `end` is 0, and the numbers stay below 2 ^ 64
            progress = answer_lines(
                tables.tables,
                &self.chunk[..count],
                progress,
                &mut self.out,
            ).unwrap();
            if progress.end == 0 {
                return Ok(progress);
            }
            self.write(progress.end)?;
            progress.end = 0;
        }
    }

    // Answers the last line, of which `held` bytes stand at the chunk's front, if it has a byte.
    fn answer_last(&mut self, tables: GoodTables, held: usize, from: Progress) -> io::Result<()>
        requires { (held < BUFFER) × (from.at ≡ 0) × (from.end ≡ 0) × (from.number + BUFFER < 2 ^ 64) }
    {
        if held == 0 {
            return Ok(());
        }
        self.chunk[held] = NEWLINE;
        self.answer_ended(tables, held + 1, from)?;
        Ok(())
    }

    // Answers all series: those of the input that has been read, and all that are still to be read.
    fn answer_all(&mut self, tables: GoodTables, input: Input) -> io::Result<()> {
        let mut from = Progress {
            at: input.at,
            end: 0,
            number: 1,
        };
        let mut end = input.count;
        for turn in 0..READS {
            from = self.answer_ended(tables, end, from)?;
            let held = carry(&mut self.chunk, from.at, end);
            from.at = 0;
            end = self.read_behind(held);
            if end == held {
                return self.answer_last(tables, held, from);
            }
        }
        // ended as by a write that fails
        Err(io::Error::from(io::ErrorKind::TimedOut))
    }

    // Prints the counts, the answers and the fit.
    pub(crate) fn answer_series(&mut self, tables: GoodTables, input: Input) -> io::Result<()> {
        self.print_counts(tables)?;
        self.answer_all(tables, input)?;
        self.print_fit(tables)
    }
}
