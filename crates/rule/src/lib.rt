// A rule: its distinct formulas, numbered inner before outer and left before right, the whole formula last; and its profile.
#![tactic(auto)]

pub mod numbering;

ghost use Rattle.std.specs.Prelude.{◌≡◌, ◌≤◌, ◌<◌, min, SomeIff};
ghost use Rattle.laws.specs.Decided.{Decides};
ghost use Rattle.rule.specs.Numbering.{IsRule, empty_in, empty_rule};
ghost use Rattle.rule.specs.Standing.{Apart};
ghost use Rattle.rule.specs.Listing.{Unused};
ghost use Rattle.rule.specs.Testing.{Tested};
ghost use Rattle.rule.specs.Coding.{code_of, decoded, Decodes, FoundIs};
ghost use Rattle.rule.specs.Visiting.{parts_of, OwnIs, VisitIs};

use meaning::{FLAGS, Profile};
use numbering::Numbering;

// The number of a formula among its rule's. It is any byte, since a caller's bytes may hold any: that it is below the formula's own, and so below 64, is known
// where a rule has been tested.
#[derive(Clone, Copy, PartialEq, Eq)]
pub struct FormulaNo(pub u8);

#[derive(Clone, Copy, PartialEq, Eq)]
pub enum Formula {
    Flag(u8),
    NotFlag(u8),
    True,
    False,
    And(FormulaNo, FormulaNo),
    Or(FormulaNo, FormulaNo),
    Next(FormulaNo),
    WeakNext(FormulaNo),
    Until(FormulaNo, FormulaNo),
    Release(FormulaNo, FormulaNo),
}

// Entries from count on are False. An array with its count, since the library uses no heap.
#[derive(Clone, Copy)]
pub struct Rule {
    pub count: usize,
    pub entries: [Formula; 64],
    pub profile: Profile,
}

impl Rule {
    // The rule of a profile with no formula.
    #[tactic(auto, unfolding(crate::specs::Numbering::empty_in))]
    pub fn empty_in(profile: Profile) -> Self
        ensures { result ≡ empty_in profile }
    {
        Rule {
            count: 0,
            entries: [Formula::False; 64],
            profile,
        }
    }

    // The rule with no formula: what bytes of no rule are read as.
    pub fn empty() -> Self
        ensures { result ≡ empty_rule }
    {
        Rule::empty_in(Profile::Finite)
    }

    // The first of the first count entries that is the formula. By a loop: `position` over the first entries was tried, and its proof didn't close.
    pub fn find(&self, count: usize, formula: Formula) -> Option<FormulaNo>
        ensures { FoundIs self.now.entries (min count 64) formula result }
    {
        for i in 0..count.min(64) {
            if self.entries[i] == formula {
                return Some(FormulaNo(i as u8));
            }
        }
        None
    }

    // Whether the rule is the numbering of some formula: refusal 6 is for one that is not.
    pub fn is_numbering(&self) -> bool
        ensures { Decides result (IsRule self.now) }
    {
        let count = self.count;
        0 < count
            && count <= self.profile.most()
            && all_apart(self, count)
            && rest_unused(self, count)
            && visit(self, count - 1, 0).is_some()
    }

    // The rule, known to be the numbering of some formula, if it is.
    pub fn numbering(&self) -> Option<Numbering<'_>>
        ensures { Tested self.now result }
    {
        if self.is_numbering() {
            Some(Numbering { rule: self })
        } else {
            None
        }
    }
}

// ---- formulas as numbers

// A formula as the three numbers that a caller's bytes hold: its kind and its operands, 0 where there is none.
#[derive(Clone, Copy, PartialEq, Eq)]
pub struct Code {
    pub kind: u8,
    pub first: u8,
    pub second: u8,
}

// That no formula has a code.
#[derive(Clone, Copy, PartialEq, Eq)]
pub struct UnknownCode;

impl From<Formula> for Code {
    ghost from_gives = { λ formula code. code ≡ code_of formula };

    fn from(formula: Formula) -> Self {
        let (kind, first, second) = match formula {
            Formula::Flag(flag) => (0, flag, 0),
            Formula::NotFlag(flag) => (1, flag, 0),
            Formula::True => (2, 0, 0),
            Formula::False => (3, 0, 0),
            Formula::And(p, q) => (4, p.0, q.0),
            Formula::Or(p, q) => (5, p.0, q.0),
            Formula::Next(p) => (6, p.0, 0),
            Formula::WeakNext(p) => (7, p.0, 0),
            Formula::Until(p, q) => (8, p.0, q.0),
            Formula::Release(p, q) => (9, p.0, q.0),
        };
        Code {
            kind,
            first,
            second,
        }
    }
}

// The formula with a code, if there is one.
impl TryFrom<Code> for Formula {
    type Error = UnknownCode;

    ghost try_from_gives = { Decodes };

    fn try_from(code: Code) -> Result<Self, UnknownCode> {
        let formula = decoded(code);
        // A formula with another code shows that none has this one.
        if Code::from(formula) == code {
            Ok(formula)
        } else {
            Err(UnknownCode)
        }
    }
}

// The formula that a code is of, if it is one's: by its kind, one of ten.
#[tactic(auto, unfolding(crate::specs::Coding::decoded))]
fn decoded(code: Code) -> Formula
    ensures { result ≡ decoded code }
{
    let p = FormulaNo(code.first);
    let q = FormulaNo(code.second);
    match code.kind {
        0 => Formula::Flag(code.first),
        1 => Formula::NotFlag(code.first),
        2 => Formula::True,
        3 => Formula::False,
        4 => Formula::And(p, q),
        5 => Formula::Or(p, q),
        6 => Formula::Next(p),
        7 => Formula::WeakNext(p),
        8 => Formula::Until(p, q),
        9 => Formula::Release(p, q),
        _ => Formula::True,
    }
}

// ---- the numbering of a formula

// What a formula is directly made of, left before right.
#[derive(Clone, Copy)]
enum Parts {
    Nothing,
    One(FormulaNo),
    Two(FormulaNo, FormulaNo),
}

// The parts of an entry: none where it has a flag that no date has.
fn parts_of(formula: Formula) -> Option<Parts>
    ensures { result ≡ parts_of formula }
{
    match formula {
        Formula::Flag(flag) | Formula::NotFlag(flag) => {
            if flag < FLAGS {
                Some(Parts::Nothing)
            } else {
                None
            }
        }
        Formula::True | Formula::False => Some(Parts::Nothing),
        Formula::Next(p) | Formula::WeakNext(p) => Some(Parts::One(p)),
        Formula::And(p, q) | Formula::Or(p, q) | Formula::Until(p, q) | Formula::Release(p, q) =>
            Some(Parts::Two(p, q)),
    }
}

// The number of a part, if it is below that of its formula.
fn below(k: usize, part: FormulaNo) -> Option<usize>
    ensures { SomeIff result (part.0 < k) part.0 }
{
    let i = usize::from(part.0);
    if i < k { Some(i) } else { None }
}

// The number after formula k, once its parts are numbered: it has to be the next.
fn own(k: usize, next: usize) -> Option<usize>
    requires { k < 64 }
    ensures { OwnIs k next result }
{
    if k == next { Some(k + 1) } else { None }
}

// Visits the formula numbered k, where those below next are numbered already: the number that comes next, if there is no fault.
fn visit(rule: &Rule, k: usize, next: usize) -> Option<usize>
    requires { k < 64 }
    ensures { VisitIs rule.now.entries k next result }
{
    if k < next {
        return Some(next);
    }
    match parts_of(rule.entries[k])? {
        Parts::Nothing => own(k, next),
        Parts::One(p) => {
            let middle = visit(rule, below(k, p)?, next)?;
            own(k, middle)
        }
        Parts::Two(p, q) => {
            let i = below(k, p)?;
            let j = below(k, q)?;
            let middle = visit(rule, i, next)?;
            let end = visit(rule, j, middle)?;
            own(k, end)
        }
    }
}

// Whether no entry below count occurs before.
fn all_apart(rule: &Rule, count: usize) -> bool
    requires { count ≤ 64 }
    ensures { Decides result (Apart rule.now.entries count) }
{
    for i in 0..count {
        if rule.find(i, rule.entries[i]).is_some() {
            return false;
        }
    }
    true
}

// Whether the entries from count on are False. By a loop: `all` over those entries was tried, and what it has to be told of them is longer than the loop.
fn rest_unused(rule: &Rule, count: usize) -> bool
    ensures { Decides result (Unused rule.now.entries count) }
{
    for i in count..64 {
        if rule.entries[i] != Formula::False {
            return false;
        }
    }
    true
}
