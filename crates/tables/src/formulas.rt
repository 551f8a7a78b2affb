// The choices of one formula, by recursion on its number. `no` is the number of a formula, and `number` that of a choice among a formula's or a state's.
// That each is within its bound stands at every method (`in_rule`, `within`): a fact of two values, which no type of one can hold.
ghost use Rattle.std.specs.Prelude.{◌≡◌, ◌+◌, ◌*◌, ◌^◌, ◌<◌, ◌≤◌, get_or};
ghost use Rattle.std.specs.Int.Bits.{bit_or};
ghost use Rattle.tables.specs.Choices.{choice, join};
ghost use Rattle.tables.specs.Indexing.{capped};
ghost use Rattle.tables.specs.InnerContracts.{CountOf, Counted, Within, ChoiceOf, SplitsTo};

use super::decoding::Decoder;
use super::{CHOICES, Choice, KeptChoice, Parts};
use rule::numbering::Numbering;
use rule::{Formula, FormulaNo};

impl Choice {
    // Nothing wanted.
    pub(crate) const FREE: Choice = Choice {
        present: 0,
        absent: 0,
        target: 0,
    };

    // All that the one wants and all that the other wants.
    pub(crate) fn joined(self, other: Choice) -> Choice
        ensures { result ≡ join self other }
    {
        Choice {
            present: self.present | other.present,
            absent: self.absent | other.absent,
            target: self.target | other.target,
        }
    }
}

// That the formula with number `no` must hold of the rest. Where `X` or `U` puts it off the rest has to have a date, and `mark` is the profile's; else it is 0.
fn put_off(mark: u64, no: FormulaNo) -> Choice
    requires { no.0 < 64 }
    ensures { result ≡ choice 0 0 (bit_or (2 ^ no.0) mark) }
{
    Choice {
        target: 1u64 << no.0 | mark,
        ..Choice::FREE
    }
}

fn sum(a: u16, b: u16) -> u16
    ensures { result ≡ capped (a + b) }
{
    a.saturating_add(b).min(CHOICES + 1)
}

pub(crate) fn product(a: u16, b: u16) -> u16
    ensures { result ≡ capped (a * b) }
{
    a.saturating_mul(b).min(CHOICES + 1)
}

pub(crate) fn count_at(counts: &[u16; 64], no: FormulaNo) -> u16
    requires { no.0 < 64 }
    ensures { result ≡ get_or counts.now no.0 0 }
{
    counts[usize::from(no.0)]
}

// How many choices the formula `no` has, by the counts of those with lower numbers.
fn count_of(numbering: Numbering, counts: &[u16; 64], no: FormulaNo) -> u16
    requires in_rule { no.0 < numbering.rule.now.count }
    requires counted { Counted numbering.rule.now no.0 counts.now }
    ensures { CountOf numbering.entry.rule.now no.0 result }
{
    let formula = numbering.rule.entries[usize::from(no.0)];
    match formula {
        Formula::Flag(_) => 1,
        Formula::NotFlag(_) => 1,
        Formula::True => 1,
        Formula::False => 0,
        Formula::And(p, q) => product(count_at(counts, p), count_at(counts, q)),
        Formula::Or(p, q) => sum(count_at(counts, p), count_at(counts, q)),
        Formula::Next(_) => 1,
        Formula::WeakNext(_) => 1,
        Formula::Until(p, q) => sum(count_at(counts, q), count_at(counts, p)),
        Formula::Release(p, q) => product(count_at(counts, q), sum(count_at(counts, p), 1)),
    }
}

// How many choices each formula below `end` has, over 1,024 being 1,025. A recursion on the formula number, as the scope asks.
fn counts_below(numbering: Numbering, end: usize) -> [u16; 64]
    requires { end ≤ numbering.rule.now.count }
    ensures { Counted numbering.entry.rule.now end result }
{
    if end == 0 {
        return [0u16; 64];
    }
    let k = end - 1;
    let mut counts = counts_below(numbering, k);
    counts[k] = count_of(numbering, &counts, FormulaNo(k as u8));
    counts
}

impl<'a> Decoder<'a> {
    // The decoder of a rule's choices; none is decoded yet.
    pub(crate) fn of(numbering: Numbering<'a>) -> Self
        ensures { result.numbering ≡ numbering.entry }
    {
        let counts = counts_below(numbering, numbering.rule.count);
        Decoder {
            numbering,
            counts,
            kept: [None; 64],
        }
    }

    // What the choice `number` of the formula `no` is made of. One decision over the ten kinds, as the scope asks, and so longer than other functions.
    fn parts_of(&self, no: FormulaNo, number: u16) -> Parts
        requires in_rule { no.0 < self.now.numbering.rule.now.count }
        requires within { Within self.now.numbering.rule.now no.0 number }
        ensures { SplitsTo self.now.numbering.rule.now no.0 number result }
    {
        let rule = self.numbering.rule;
        let mark = rule.profile.mark();
        let formula = rule.entries[usize::from(no.0)];
        match formula {
            Formula::Flag(f) => Parts::Whole(Choice {
                present: 1 << f,
                ..Choice::FREE
            }),
            Formula::NotFlag(f) => Parts::Whole(Choice {
                absent: 1 << f,
                ..Choice::FREE
            }),
            Formula::True => Parts::Whole(Choice::FREE),
            Formula::False => Parts::Whole(Choice::FREE),
            Formula::And(p, q) => {
                let each = count_at(&self.counts, q);
                Parts::Two(p, number / each, q, number % each)
            }
            Formula::Or(p, q) => {
                let first = count_at(&self.counts, p);
                if number < first {
                    Parts::One(p, number, Choice::FREE)
                } else {
                    Parts::One(q, number - first, Choice::FREE)
                }
            }
            Formula::Next(p) => Parts::Whole(put_off(mark, p)),
            Formula::WeakNext(p) => Parts::Whole(put_off(0, p)),
            Formula::Until(p, q) => {
                let first = count_at(&self.counts, q);
                if number < first {
                    Parts::One(q, number, Choice::FREE)
                } else {
                    Parts::One(p, number - first, put_off(mark, no))
                }
            }
            Formula::Release(p, q) => {
                let held = count_at(&self.counts, p);
                let each = held + 1;
                let right = number % each;
                if right < held {
                    Parts::Two(q, number / each, p, right)
                } else {
                    Parts::One(q, number / each, put_off(0, no))
                }
            }
        }
    }

    // The choice `number` of the formula `no`: the one that is kept, or decoded and then kept.
    #[cycle(choice_of_decoded)]
    pub(crate) fn choice_of(&mut self, no: FormulaNo, number: u16) -> Choice
        requires in_rule { no.0 < self.old.numbering.rule.now.count }
        requires within { Within self.old.numbering.rule.now no.0 number }
        ensures choice { ChoiceOf self.old.numbering.rule.now no.0 number result }
        ensures same_rule { self.new.numbering ≡ self.old.numbering }
    {
        let place = usize::from(no.0);
        if let Some(kept) = self.kept[place]
            && kept.number == number
        {
            return kept.choice;
        }
        let choice = self.decoded(no, number);
        self.kept[place] = Some(KeptChoice { number, choice });
        choice
    }

    // The choice `number` of the formula `no`, by choices of formulas with lower numbers.
    #[cycle(choice_of_decoded)]
    fn decoded(&mut self, no: FormulaNo, number: u16) -> Choice
        requires in_rule { no.0 < self.old.numbering.rule.now.count }
        requires within { Within self.old.numbering.rule.now no.0 number }
        ensures choice { ChoiceOf self.old.numbering.rule.now no.0 number result }
        ensures same_rule { self.new.numbering ≡ self.old.numbering }
    {
        match self.parts_of(no, number) {
            Parts::Whole(choice) => choice,
            Parts::One(p, n, more) => self.choice_of(p, n).joined(more),
            Parts::Two(p, n, q, m) => {
                let left = self.choice_of(p, n);
                let right = self.choice_of(q, m);
                left.joined(right)
            }
        }
    }
}
