// The plain judge: backwards over the dates, and at each over the rule's formulas, inner before outer; and which of these a state that accepts may have.
#![tactic(auto)]

mod passes;

ghost use Rattle.plain.specs.Ends.{EndsOf};
ghost use Rattle.plain.specs.Judging.{Judging};

use answers::Refusal;
use meaning::Date;
use passes::{at_end, has, on_series};
use rule::{FormulaNo, Rule};

// The formulas that an accepting state of the rule may have, as a mask: bit k stands for formula k. Refused where the rule is the numbering of no formula.
pub fn ends_of(rule: &Rule) -> Result<u64, Refusal>
    ensures { EndsOf rule.now result }
{
    let numbering = rule.numbering().ok_or(Refusal::NotARule)?;
    Ok(at_end(numbering))
}

// Whether the rule answers yes to the series.
pub fn judge(rule: &Rule, series: &[Date]) -> Result<bool, Refusal>
    ensures { Judging rule.now series.now result }
{
    let numbering = rule.numbering().ok_or(Refusal::NotARule)?;
    let here = on_series(numbering, series);
    Ok(has(here, FormulaNo((numbering.rule.count - 1) as u8)))
}
