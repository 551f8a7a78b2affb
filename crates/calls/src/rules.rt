// Calls that take a rule. Bytes that are those of no rule are refused as no rule, by 6.
ghost use Rattle.tables.specs.Building.{slices};
ghost use Rattle.calls.specs.ByteForm.{HasRule};
ghost use Rattle.calls.specs.Answers.{Says};
ghost use Rattle.calls.specs.Promises.{JudgedPlainly, BuildCall};

use super::form::rule_of;
use super::numbers::said;
use automaton::Edge;
use meaning::Date;

// Whether the profile's number, the count and the bytes are those of a rule that is the numbering of some formula: 1 yes, 0 no.
pub fn hourcricket_is_rule(profile: u8, count: usize, bytes: &[u8]) -> u8
    ensures { Says result (HasRule profile count bytes.now) }
{
    u8::from(rule_of(profile, count, bytes).is_numbering())
}

// Whether the rule answers yes to the series: 1 yes, 0 no, or 6.
pub fn hourcricket_judge_plain(profile: u8, count: usize, bytes: &[u8], series: &[Date]) -> u8
    ensures { JudgedPlainly profile count bytes.now series.now result }
{
    said(plain::judge(&rule_of(profile, count, bytes), series))
}

// Builds the rule's tables in the lent slices: 0 with the counts of states and edges, or 6, 8, 9, and the counts as they were.
pub fn hourcricket_build(
    profile: u8,
    count: usize,
    bytes: &[u8],
    masks: &mut [u64],
    starts: &mut [u16],
    accepts: &mut [u8],
    edges: &mut [Edge],
    states: &mut usize,
    edge_count: &mut usize,
) -> u8
    ensures { BuildCall profile count bytes.now (slices masks.old starts.old accepts.old edges.old) states.old edge_count.old result (slices masks.new starts.new accepts.new edges.new) states.new edge_count.new }
{
    match tables::build(
        &rule_of(profile, count, bytes),
        masks,
        starts,
        accepts,
        edges,
    ) {
        Ok(counts) => {
            *states = counts.states;
            *edge_count = counts.edges;
            0
        }
        Err(refusal) => u8::from(refusal),
    }
}
