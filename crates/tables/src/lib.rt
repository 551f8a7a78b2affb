// The tables of a rule: states by first meeting, edges packed by row, from the choices of its formulas.
#![tactic(auto)]

mod adding;
mod building;
mod decoding;
mod exploring;
mod formulas;
mod states;

ghost use Rattle.answers.specs.Refusals.{outcome};
ghost use Rattle.tables.specs.Building.{slices, Builds};

use answers::Refusal;
use automaton::Edge;
use building::build_in;
use meaning::Date;
use rule::numbering::Numbering;
use rule::{FormulaNo, Rule};

// The sizes of the lent slices: masks and accept bytes, row starts, edges.
pub const STATES: usize = automaton::STATES;

pub const STARTS: usize = STATES + 1;

pub const EDGES: usize = automaton::EDGES;

// The most edges of a state, and the most choices before edges that repeat or contradict themselves are dropped.
pub(crate) const ROW_EDGES: usize = 64;

pub(crate) const CHOICES: u16 = 1024;

// How many states and edges there are.
#[derive(Clone, Copy, PartialEq, Eq)]
pub struct Counts {
    pub states: usize,
    pub edges: usize,
}

// One way to meet a formula or a state at a date: the flags that must be present, those that must be absent, and the formulas that must hold
// of the rest, perhaps with the mark.
#[derive(Clone, Copy)]
pub(crate) struct Choice {
    pub present: Date,
    pub absent: Date,
    pub target: u64,
}

// A choice of a formula, beside its number among them.
#[derive(Clone, Copy)]
pub(crate) struct KeptChoice {
    pub number: u16,
    pub choice: Choice,
}

// What a choice of a formula is made of.
#[derive(Clone, Copy)]
pub(crate) enum Parts {
    // Nothing of other formulas.
    Whole(Choice),
    // A choice of one formula, joined with more.
    One(FormulaNo, u16, Choice),
    // A choice of each of two formulas.
    Two(FormulaNo, u16, FormulaNo, u16),
}

// A choice of the members from some number on, and what is left of the number for those below.
#[derive(Clone, Copy)]
pub(crate) struct Picked {
    pub choice: Choice,
    pub left: u16,
}

// Builds the tables of a rule in the lent slices: a mask and an accept byte for each state, a start for each row and the end of the last, and
// the edges, row after row.
pub fn build(
    rule: &Rule,
    masks: &mut [u64],
    starts: &mut [u16],
    accepts: &mut [u8],
    edges: &mut [Edge],
) -> Result<Counts, Refusal>
    ensures { Builds rule.now (slices masks.old starts.old accepts.old edges.old) (outcome result) (slices masks.new starts.new accepts.new edges.new) }
{
    let ends = plain::ends_of(rule)?;
    if masks.len() < STATES
        || starts.len() < STARTS
        || accepts.len() < STATES
        || edges.len() < EDGES
    {
        return Err(Refusal::ShortSlice);
    }
    // `ends_of` has found the rule to be a numbering, or it had been refused: a call of `numbering` would look at the rule again.
    build_in(Numbering { rule }, ends, masks, starts, accepts, edges)
}
