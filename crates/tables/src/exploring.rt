// The states of a rule by first meeting, and their rows.
ghost use Rattle.tables.specs.Progress.{Fresh, Explores};

use super::adding::add_edge;
use super::decoding::Decoder;
use super::{CHOICES, Counts};
use automaton::Edge;
use rule::numbering::Numbering;

// Fills the masks, starts and edges from state 0 on, whose mask is there. Nothing where a state or the tables have too much.
pub(crate) fn explore(
    numbering: Numbering,
    masks: &mut [u64],
    starts: &mut [u16],
    edges: &mut [Edge],
) -> Option<Counts>
    requires { Fresh numbering.rule.now masks.old starts.old edges.old }
    ensures { Explores numbering.entry.rule.now masks.old starts.old edges.old result masks.new starts.new edges.new }
{
    let mut decoder = Decoder::of(numbering);
    let mut counts = Counts {
        states: 1,
        edges: 0,
    };
    let mut row = 0usize;
    // Left with a value, by label at the first excess, which no `for` can be.
    'rows: loop {
        starts[row] = counts.edges as u16;
        if row == counts.states {
            break 'rows Some(counts);
        }
        let mask = masks[row];
        let choices = decoder.state_count(mask);
        if CHOICES < choices {
            break 'rows None;
        }
        let first = counts.edges;
        for number in 0..choices {
            let choice = decoder.state_choice(mask, number);
            let Some(grown) = add_edge(masks, edges, counts, first, choice) else {
                break 'rows None;
            };
            counts = grown;
        }
        row += 1;
    }
}
