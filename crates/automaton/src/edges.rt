// An edge as a word: its parts packed and read back, by functions of a number, since C lends edges in slices of numbers.
ghost use Rattle.std.specs.Prelude.{◌≡◌, ◌%◌, ◌^◌};
ghost use Rattle.meaning.specs.Flags.{flags};
ghost use Rattle.automaton.specs.Tables.{present, absent, target, word, target_bits};

use super::{Edge, StateNo};
use meaning::{Date, FLAGS};

// The flags that must be absent begin where those that must be present end, and the target above both.
const ABSENT: Edge = 1 << FLAGS;

const TARGET: Edge = 1 << (FLAGS + FLAGS);

// How many state numbers the bits of a target can tell apart.
const STATE_NUMBERS: usize = 1 << 16;

// The edge with these parts; of a target with more bits than an edge has for it, the low ones.
pub fn edge_of(wanted: Date, unwanted: Date, to: StateNo) -> Edge
    ensures { result ≡ word flags wanted unwanted (to.0 % 2 ^ target_bits) }
{
    let number = to.0 % STATE_NUMBERS;
    Edge::from(wanted) + Edge::from(unwanted) * ABSENT + (number as Edge) * TARGET
}

// What must be present: the least date that a fair edge allows.
pub fn edge_present(edge: Edge) -> Date
    ensures { result ≡ present flags edge }
{
    (edge % ABSENT) as Date
}

pub fn edge_absent(edge: Edge) -> Date
    ensures { result ≡ absent flags edge }
{
    (edge / ABSENT % ABSENT) as Date
}

pub fn edge_target(edge: Edge) -> StateNo
    ensures { result.0 ≡ target flags edge }
{
    StateNo((edge / TARGET) as usize)
}
