// Standard input and output, each by way of a buffer. The buffers are the program's own, and no BufReader of std's, which takes its buffer from the
// heap: a line that has not ended is brought to the chunk's front by `carry`, on whose promise (`Carries`) the statement of what is printed rests.
ghost use Rattle.std.specs.Prelude.{◌≤◌, ◌<◌};
ghost use Rattle.judge.specs.declared.streams.TheConstants.{BUFFER};

use std::io;
use std::io::{Print, Read};

// The bytes that are read, and written, at once at most.
pub(crate) const BUFFER: usize = 65536;

// The most reads, so that the program ends and line numbers stay below 2 ^ 64: at one a microsecond they last for years.
pub(crate) const READS: u64 = 1 << 47;

// The chunk's first `count` bytes were read: the rule's line is the first `rule` of them, and the series begin at `at`.
#[derive(Clone, Copy)]
pub(crate) struct Input {
    pub rule: usize,
    pub at: usize,
    pub count: usize,
    ghost rule_within: { rule ≤ count },
    ghost at_within: { at ≤ count },
    ghost short: { count < BUFFER },
}

#[derive(Drop)]
pub(crate) struct Streams<'a> {
    pub rt: &'a HostRuntime,
    pub chunk: [u8; BUFFER],
    pub out: [u8; BUFFER],
}

impl Streams<'_> {
    // Reads once, behind the bytes that are held, and says how many there are then: no more than before where the input ends or cannot be
    // read. A byte of room is left, for the newline that the last line may lack.
    pub(crate) fn read_behind(&mut self, held: usize) -> usize
        requires { held < BUFFER }
        ensures { (held ≤ result) × (result < BUFFER) }
    {
        match self.rt.stdin().read(&mut self.chunk[held..BUFFER - 1]) {
            Ok(count) => held + count,
            Err(_) => held,
        }
    }

    // Writes what stands in `out` up to `end`.
    pub(crate) fn write(&self, end: usize) -> io::Result<()>
        requires { end ≤ BUFFER }
    {
        self.rt.stdout().write_all(&self.out[..end])
    }
}
