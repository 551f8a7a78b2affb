// What rules say, in specs/; of the code, what a date is, the profiles and how a place in a series is counted.
#![tactic(auto)]

ghost use Rattle.std.specs.Prelude.{◌≡◌, ◌≤◌};
ghost use Rattle.meaning.specs.Dialect.{dialect, Chooses};

// How many flags a date has.
pub const FLAGS: u8 = 8;

// A bit a flag.
pub type Date = u8;

// Which dialect a rule is written in: Finite LTL, which also speaks of the end, where no date is left, or LTLf, which speaks of dates only.
#[derive(Clone, Copy, PartialEq, Eq)]
pub enum Profile {
    Finite,
    Last,
}

// That no profile has a number.
#[derive(Clone, Copy, PartialEq, Eq)]
pub struct UnknownProfile;

// The profile that a number chooses.
impl TryFrom<u8> for Profile {
    type Error = UnknownProfile;

    ghost try_from_gives = { Chooses };

    fn try_from(number: u8) -> Result<Self, UnknownProfile> {
        match number {
            0 => Ok(Profile::Finite),
            1 => Ok(Profile::Last),
            _ => Err(UnknownProfile),
        }
    }
}

impl Profile {
    // The most formulas that a rule of the profile may have.
    pub fn most(self) -> usize
        ensures { (result ≡ (dialect self).most) × (result ≤ 64) }
    {
        match self {
            Profile::Finite => 64,
            Profile::Last => 63,
        }
    }

    // What a set has beside a formula that `X` or `U` puts into it, and the start beside the whole formula.
    pub fn mark(self) -> u64
        ensures { result ≡ (dialect self).mark }
    {
        match self {
            Profile::Finite => 0,
            Profile::Last => 1u64 << 63,
        }
    }
}

// A date's place in a series.
#[derive(Clone, Copy, PartialEq, Eq)]
pub struct DatePlace(pub usize);
