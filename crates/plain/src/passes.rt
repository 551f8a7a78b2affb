// The passes over a rule's formulas, inner before outer, over a rule that is known to be one.
ghost use Rattle.std.specs.Prelude.{◌≡◌, ◌&&◌, ◌||◌, true, false, [], ℕ, ◌<◌, eqb};
ghost use Rattle.laws.specs.Masks.{bit};
ghost use Rattle.meaning.specs.Flags.{flags};
ghost use Rattle.meaning.specs.Rest.{Rest};
ghost use Rattle.plain.specs.Masking.{MaskOf, PassOver, Inner, at_end, may_end, must_end, at_date};

use meaning::{Date, Profile};
use rule::numbering::Numbering;
use rule::{Formula, FormulaNo};

// Whether the mask has the number.
pub(crate) fn has(mask: u64, number: FormulaNo) -> bool
    requires { number.0 < 64 }
    ensures { result ≡ bit mask number.0 }
{
    mask >> number.0 & 1 == 1
}

// The same of a date's byte. One function over 64 bits for both was tried: a third slower at 13 formulas.
fn has_flag(date: Date, flag: u8) -> bool
    requires { flag < flags }
    ensures { result ≡ bit date flag }
{
    date >> flag & 1 == 1
}

// The mask, with the number in it where `holds`: no branch, since no pattern predicts what holds.
fn with_number(mask: u64, number: FormulaNo, holds: bool) -> u64
    requires { number.0 < 64 }
    ensures { (k : ℕ) → bit result k ≡ (bit mask k || (holds && eqb k number.0)) }
{
    mask | u64::from(holds) << number.0
}

// Whether a formula says yes at the end, where those of `here` do.
fn says_at_end(formula: Formula, here: u64) -> bool
    requires { Inner 64 formula }
    ensures { result ≡ at_end formula here }
{
    match formula {
        Formula::Flag(_) => false,
        Formula::NotFlag(_) => true,
        Formula::True => true,
        Formula::False => false,
        Formula::And(p, q) => has(here, p) & has(here, q),
        Formula::Or(p, q) => has(here, p) | has(here, q),
        Formula::Next(_) => false,
        Formula::WeakNext(_) => true,
        Formula::Until(_, q) => has(here, q),
        Formula::Release(_, q) => has(here, q),
    }
}

// Whether a formula that is put off says yes at the end, where the date it is put off to need not be there and those of `here` say yes.
fn may_at_end(profile: Profile, formula: Formula, here: u64) -> bool
    requires { Inner 64 formula }
    ensures { result ≡ may_end profile formula here }
{
    match profile {
        Profile::Finite => says_at_end(formula, here),
        Profile::Last => true,
    }
}

// The formulas that say yes at the end where the date they are put off to has to be there.
fn must_at_end(profile: Profile, may: u64) -> u64
    ensures { result ≡ must_end profile may }
{
    match profile {
        Profile::Finite => may,
        Profile::Last => 0,
    }
}

// The formulas that say yes at the end of a series, put off to a date that need not be there. A loop of its own beside `holding`: one for both would
// take what a formula says as a closure, and the contract that this needs is longer than the loop.
pub(crate) fn at_end(numbering: Numbering) -> u64
    ensures { MaskOf numbering.entry.rule.now.entries (λ φ. Rest numbering.entry.rule.now.profile false φ []) numbering.entry.rule.now.count result }
{
    let rule = numbering.rule;
    let mut here = 0u64;
    let formulas = &rule.entries[..rule.count];
    for (k, &formula) in formulas.iter().enumerate() {
        let holds = may_at_end(rule.profile, formula, here);
        here = with_number(here, FormulaNo(k as u8), holds);
    }
    here
}

// A date and what is known of the rest behind it: `must` has the formulas that hold where the next date has to be there, `may` those that hold where it need
// not be. The two differ only at the last date.
#[derive(Clone, Copy)]
struct Dated {
    date: Date,
    must: u64,
    may: u64,
}

impl Dated {
    // Whether a formula holds at the date, where those of `here` hold there.
    fn says(self, formula: Formula, number: FormulaNo, here: u64) -> bool
        requires { (number.0 < 64) × Inner 64 formula }
        ensures { result ≡ at_date formula number.0 self.date here self.must self.may }
    {
        match formula {
            Formula::Flag(flag) => has_flag(self.date, flag),
            Formula::NotFlag(flag) => !has_flag(self.date, flag),
            Formula::True => true,
            Formula::False => false,
            Formula::And(p, q) => has(here, p) & has(here, q),
            Formula::Or(p, q) => has(here, p) | has(here, q),
            Formula::Next(p) => has(self.must, p),
            Formula::WeakNext(p) => has(self.may, p),
            Formula::Until(p, q) => has(here, q) | has(here, p) & has(self.must, number),
            Formula::Release(p, q) => has(here, q) & (has(here, p) | has(self.may, number)),
        }
    }

    // The formulas that hold at the date. A call for each date would show on small rules.
    #[inline(always)]
    fn holding(self, numbering: Numbering) -> u64
        ensures { PassOver numbering.entry.rule.now self.date self.must self.may numbering.entry.rule.now.count result }
    {
        let rule = numbering.rule;
        let mut here = 0u64;
        let formulas = &rule.entries[..rule.count];
        for (k, &formula) in formulas.iter().enumerate() {
            let number = FormulaNo(k as u8);
            let holds = self.says(formula, number, here);
            here = with_number(here, number, holds);
        }
        here
    }
}

// The formulas that answer yes to the series. Only at the last date is a next one that has to be there told from one that need not.
pub(crate) fn on_series(numbering: Numbering, series: &[Date]) -> u64
    ensures { MaskOf numbering.entry.rule.now.entries (λ φ. Rest numbering.entry.rule.now.profile true φ series.now) numbering.entry.rule.now.count result }
{
    let may = at_end(numbering);
    let must = must_at_end(numbering.rule.profile, may);
    let [earlier @ .., last] = series else {
        return must;
    };
    let last = Dated {
        date: *last,
        must,
        may,
    };
    let mut after = last.holding(numbering);
    for &date in earlier.iter().rev() {
        let dated = Dated {
            date,
            must: after,
            may: after,
        };
        after = dated.holding(numbering);
    }
    after
}
