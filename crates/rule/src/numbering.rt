// Rules that are the numbering of a formula.
ghost use Rattle.rule.specs.Numbering.{IsRule};

use super::Rule;

// A rule that has been found to be the numbering of some formula: no call refuses it, and none looks at that again.
#[derive(Clone, Copy)]
pub struct Numbering<'a> {
    pub rule: &'a Rule,
    // In `∥ ∥₁`, since a ghost field holds facts that have one proof only: `known_rule` of proofs/Deciding opens it.
    ghost is_rule: { ∥ IsRule rule.now ∥₁ },
}
