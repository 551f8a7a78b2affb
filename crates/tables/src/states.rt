// The choices of a state: each of its members' joined with each of the others'.
ghost use Rattle.std.specs.Prelude.{◌≡◌, ◌<◌};
ghost use Rattle.laws.specs.Masks.{bit};
ghost use Rattle.tables.specs.InnerContracts.{StateCount, WithinState, StateChoice, Pickable, PickedFrom};

use super::decoding::Decoder;
use super::formulas::{count_at, product};
use super::{Choice, Picked};
use rule::FormulaNo;

// The plain judge has a twin: a test that is public could ask for no number below 64, and would test that itself at each member.
fn has(mask: u64, no: FormulaNo) -> bool
    requires { no.0 < 64 }
    ensures { result ≡ bit mask no.0 }
{
    mask >> no.0 & 1 == 1
}

// The loop over a state's members, the highest first, stands twice: an iterator of them would need clauses of what it has given and what is left, which are
// longer than the loop.
impl Decoder<'_> {
    // How many choices the state `mask` has, over 1,024 being 1,025.
    pub(crate) fn state_count(&self, mask: u64) -> u16
        ensures { StateCount self.now.numbering.rule.now mask result }
    {
        let mut n = 1;
        for k in (0..self.numbering.rule.count).rev() {
            let no = FormulaNo(k as u8);
            if has(mask, no) {
                n = product(count_at(&self.counts, no), n);
            }
        }
        n
    }

    // Joins the choice of the member `no` in front.
    fn with_choice(&mut self, no: FormulaNo, picked: Picked) -> Picked
        requires in_rule { no.0 < self.old.numbering.rule.now.count }
        requires pickable { Pickable self.old.numbering.rule.now no.0 }
        ensures picked { PickedFrom self.old.numbering.rule.now no.0 picked result }
        ensures same_rule { self.new.numbering ≡ self.old.numbering }
    {
        let each = count_at(&self.counts, no);
        let more = self.choice_of(no, picked.left % each);
        Picked {
            choice: more.joined(picked.choice),
            left: picked.left / each,
        }
    }

    // The choice `number` of the state `mask`: the highest member's runs fastest.
    pub(crate) fn state_choice(&mut self, mask: u64, number: u16) -> Choice
        requires { WithinState self.old.numbering.rule.now mask number }
        ensures choice { StateChoice self.old.numbering.rule.now mask number result }
        ensures same_rule { self.new.numbering ≡ self.old.numbering }
    {
        let mut picked = Picked {
            choice: Choice::FREE,
            left: number,
        };
        for k in (0..self.numbering.rule.count).rev() {
            let no = FormulaNo(k as u8);
            if has(mask, no) {
                picked = self.with_choice(no, picked);
            }
        }
        picked.choice
    }
}
