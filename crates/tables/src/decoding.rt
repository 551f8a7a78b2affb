// The choices of a rule's formulas: how many each has, and the one of each that was decoded last. Choices with numbers near each other share parts, and a
// rule may use a part many times: to decode each use anew would take exponential time.
ghost use Rattle.std.specs.Prelude.{◌≤◌};
ghost use Rattle.tables.specs.InnerContracts.{Counted, Kept};

use super::KeptChoice;
use rule::numbering::Numbering;

#[derive(Drop)]
pub(crate) struct Decoder<'a> {
    pub numbering: Numbering<'a>,
    // How many choices each formula has, over 1,024 being 1,025. An array of its own beside `kept`: the counts are all there before anything is decoded, by a
    // recursion that returns them, and it would copy what is kept at each formula.
    pub counts: [u16; 64],
    // The choice of each formula that was decoded last.
    pub kept: [Option<KeptChoice>; 64],
    ghost small: { numbering.rule.now.count ≤ 64 },
    ghost counted: { Counted numbering.rule.now numbering.rule.now.count counts },
    ghost kept_right: { Kept numbering.rule.now kept },
}
