// What a call answers: a value, or why it is refused.
#![tactic(auto)]

ghost use Rattle.std.specs.Prelude.{◌≡◌};
ghost use Rattle.answers.specs.Refusals.{number_of};

// Why a call is refused. A text's refusal has a place, and is an enum of reading's own.
#[derive(Clone, Copy, PartialEq, Eq)]
pub enum Refusal {
    // The nodes that are handed in are no rule.
    NotARule,
    // The text that would be printed is longer, or deeper, than a text that is read may be.
    TooLong,
    // A lent slice has no room for what is to be written there.
    ShortSlice,
    // The tables that would be built have too many states or edges.
    TooLarge,
    // The tables are not good, or the walk has a state that they have not. Also where a place, an end or a line's number is too high.
    BadTables,
}

// The refusal's number.
impl From<Refusal> for u8 {
    ghost from_gives = { λ refusal number. number ≡ number_of refusal };

    fn from(refusal: Refusal) -> u8 {
        match refusal {
            Refusal::NotARule => 6,
            Refusal::TooLong => 7,
            Refusal::ShortSlice => 8,
            Refusal::TooLarge => 9,
            Refusal::BadTables => 10,
        }
    }
}
