// A choice of a row becomes an edge, and its target a state.
ghost use Rattle.std.specs.Prelude.{◌≡◌, ◌+◌, ◌≤◌, eqb, length, get_or};
ghost use Rattle.laws.specs.Places.{place};
ghost use Rattle.tables.specs.Progress.{Adds};

use super::{Choice, Counts, ROW_EDGES, STATES};
use automaton::edges::edge_of;
use automaton::{Edge, StateNo};

// Where the set `mask` stands among the masks; where it is new, where it will stand. Left by break, with the state, as the scope asks.
fn find(masks: &[u64], mask: u64) -> StateNo
    ensures { result.0 ≡ place eqb mask masks.now }
{
    'found: {
        for (at, &met) in masks.iter().enumerate() {
            if met == mask {
                break 'found StateNo(at);
            }
        }
        StateNo(masks.len())
    }
}

// Adds the choice to the row whose edges begin at `first`, unless it contradicts itself or is there already, and its target to the states. Nothing
// where that is too much.
pub(crate) fn add_edge(
    masks: &mut [u64],
    edges: &mut [Edge],
    counts: Counts,
    first: usize,
    choice: Choice,
) -> Option<Counts>
    requires masks_long { 128 ≤ length masks.old }
    requires edges_long { 8192 ≤ length edges.old }
    requires few { counts.states ≤ 128 }
    requires row_begun { first ≤ counts.edges }
    requires row_room { counts.edges ≤ first + 64 }
    requires edge_room { first + 64 ≤ 8192 }
    ensures { Adds masks.old edges.old counts.states first counts.edges choice result masks.new edges.new }
{
    if choice.present & choice.absent != 0 {
        return Some(counts);
    }
    let state = find(&masks[..counts.states], choice.target);
    let edge = edge_of(choice.present, choice.absent, state);
    if edges[first..counts.edges].contains(&edge) {
        return Some(counts);
    }
    if counts.edges - first == ROW_EDGES {
        return None;
    }
    if state.0 != counts.states {
        edges[counts.edges] = edge;
        return Some(Counts {
            edges: counts.edges + 1,
            ..counts
        });
    }
    if counts.states == STATES {
        return None;
    }
    masks[counts.states] = choice.target;
    edges[counts.edges] = edge;
    Some(Counts {
        states: counts.states + 1,
        edges: counts.edges + 1,
    })
}
