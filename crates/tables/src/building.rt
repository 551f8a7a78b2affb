// The tables of a rule, in slices that are long enough.
ghost use Rattle.std.specs.Prelude.{◌≡◌, ◌-◌, ◌≤◌, ℕ, false, [], map, eqb, length};
ghost use Rattle.std.specs.Int.Bits.{bit_and};
ghost use Rattle.laws.specs.Ranges.{one};
ghost use Rattle.answers.specs.Refusals.{outcome};
ghost use Rattle.meaning.specs.Rest.{Rest};
ghost use Rattle.plain.specs.Masking.{MaskOf};
ghost use Rattle.tables.specs.Building.{slices, Long, laid, zeroed, Builds};
ghost use Rattle.tables.specs.InnerContracts.{start_set};

use super::exploring::explore;
use super::{Counts, EDGES, STARTS, STATES};
use answers::Refusal;
use automaton::Edge;
use rule::numbering::Numbering;

// Zeroes the lent slices up to their sizes. The four go on one by one, as they are lent: a struct of them would have to promise at each call, slice by
// slice, that it still holds the caller's.
fn clear(masks: &mut [u64], starts: &mut [u16], accepts: &mut [u8], edges: &mut [Edge])
    requires { Long (slices masks.old starts.old accepts.old edges.old) }
    ensures { slices masks.new starts.new accepts.new edges.new ≡ zeroed (slices masks.old starts.old accepts.old edges.old) }
{
    masks[..STATES].fill(0);
    starts[..STARTS].fill(0);
    accepts[..STATES].fill(0);
    edges[..EDGES].fill(0);
}

// State 0: the set of the whole formula only, with the profile's mark.
fn start_set(numbering: Numbering) -> u64
    ensures { result ≡ start_set numbering.entry.rule.now }
{
    let rule = numbering.rule;
    1u64 << (rule.count - 1) | rule.profile.mark()
}

// The accept bytes of the states: 1 where the state has nothing that keeps it from accepting. Under last it lacks the mark, under finite every member says
// yes at the end. `ends` has the formulas that a state which accepts may have.
fn fill_accepts(ends: u64, masks: &[u64], accepts: &mut [u8])
    requires few { length masks.now ≤ 128 }
    requires long { 128 ≤ length accepts.old }
    requires zero { accepts.old ≡ laid 128 [] accepts.old }
    ensures { accepts.new ≡ laid 128 (map (λ (m : ℕ). one (eqb (bit_and ends m) m)) masks.now) accepts.old }
{
    for (state, &mask) in masks.iter().enumerate() {
        accepts[state] = u8::from(ends & mask == mask);
    }
}

// `ends` has the formulas that a state which accepts may have.
pub(crate) fn build_in(
    numbering: Numbering,
    ends: u64,
    masks: &mut [u64],
    starts: &mut [u16],
    accepts: &mut [u8],
    edges: &mut [Edge],
) -> Result<Counts, Refusal>
    requires long { Long (slices masks.old starts.old accepts.old edges.old) }
    requires ends { MaskOf numbering.rule.now.entries (λ φ. Rest numbering.rule.now.profile false φ []) numbering.rule.now.count ends }
    ensures { Builds numbering.entry.rule.now (slices masks.old starts.old accepts.old edges.old) (outcome result) (slices masks.new starts.new accepts.new edges.new) }
{
    clear(masks, starts, accepts, edges);
    masks[0] = start_set(numbering);
    let Some(counts) = explore(numbering, masks, starts, edges) else {
        clear(masks, starts, accepts, edges);
        return Err(Refusal::TooLarge);
    };
    fill_accepts(ends, &masks[..counts.states], accepts);
    Ok(counts)
}
