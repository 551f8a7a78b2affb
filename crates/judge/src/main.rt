// Reads a rule and then series from standard input, and answers each series by the rule's tables. What is printed is made by proved functions on
// slices; this program moves bytes, and ends where a write fails.
#![tactic(auto)]

mod answering;
mod printing;
mod streams;

ghost use Rattle.meaning.specs.Dialect.{dialect};
ghost use Rattle.answers.specs.Refusals.{outcome};
ghost use Rattle.meaning.specs.declared.Profile.TheVariants.{Finite};
ghost use Rattle.reading.specs.Promise.{Reads};
ghost use Rattle.tables.specs.Building.{slices, Builds};

use automaton::good::GoodTables;
use automaton::{Edge, Tables};
use rule::Rule;
use rule::numbering::Numbering;
use std::io;
use streams::{BUFFER, Input, READS, Streams};
use tables::Counts;
use walking::lines::{carry, line_end};

// The number of the profile finite: reading is asked by number, as from C, and its promise names this one.
const FINITE: u8 = 0;

// Reads until the rule's line has ended, or the input has.
fn read_rule(streams: &mut Streams) -> Input {
    let mut held = 0usize;
    for _ in 0..READS {
        let count = streams.read_behind(held);
        let end = line_end(&streams.chunk[..count], 0);
        if end < count {
            return Input {
                rule: end,
                at: end + 1,
                count,
            };
        }
        if count == held {
            break;
        }
        held = carry(&mut streams.chunk, 0, count);
    }
    Input {
        rule: held,
        at: held,
        count: held,
    }
}

// The rule's text under the profile finite.
fn read_finite(text: &[u8]) -> Result<Rule, reading::Refusal>
    ensures { Reads (dialect Finite).number text.now result }
{
    reading::read(FINITE, text)
}

// The tables of a rule that is known to be one: `tables::build` takes any, and refuses what is none.
fn build_rule(
    numbering: Numbering,
    masks: &mut [u64],
    starts: &mut [u16],
    accepts: &mut [u8],
    edges: &mut [Edge],
) -> Result<Counts, answers::Refusal>
    ensures { Builds numbering.entry.rule.now (slices masks.old starts.old accepts.old edges.old) (outcome result) (slices masks.new starts.new accepts.new edges.new) }
{
    tables::build(numbering.rule, masks, starts, accepts, edges)
}

// Builds the rule's tables, and answers by them.
fn answer_rule(streams: &mut Streams, numbering: Numbering, input: Input) -> io::Result<()> {
    let mut masks = [0u64; tables::STATES];
    let mut starts = [0u16; tables::STARTS];
    let mut accepts = [0u8; tables::STATES];
    let mut edges: [Edge; tables::EDGES] = [0; tables::EDGES];
    match build_rule(numbering, &mut masks, &mut starts, &mut accepts, &mut edges) {
        Ok(counts) => {
            let tables = Tables {
                states: counts.states,
                edge_count: counts.edges,
                starts: &starts,
                accepts: &accepts,
                edges: &edges,
            };
            streams.answer_series(GoodTables { tables }, input)
        }
        Err(refusal) => streams.print_build_refusal(refusal),
    }
}

fn answer_input(streams: &mut Streams) -> io::Result<()> {
    let input = read_rule(streams);
    match read_finite(&streams.chunk[..input.rule]) {
        Ok(rule) => answer_rule(streams, Numbering { rule: &rule }, input),
        Err(refusal) => streams.print_refusal(refusal),
    }
}

fn main(rt: HostRuntime) {
    let mut streams = Streams {
        rt: &rt,
        chunk: [0; BUFFER],
        out: [0; BUFFER],
    };
    // where a write fails, nothing is left to say
    let _ = answer_input(&mut streams);
}
