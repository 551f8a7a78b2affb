// Tables that are good.
ghost use Rattle.meaning.specs.Flags.{flags};
ghost use Rattle.automaton.specs.Tables.{Good};
ghost use Rattle.automaton.specs.Handed.{seen};

use super::Tables;

// Tables that have been found good: no call on them is refused for what they are, and none of those here tests it again. Public calls of the crates
// above take tables as they are handed in, so that who hands `tables` on to one has them tested once more.
#[derive(Clone, Copy)]
pub struct GoodTables<'a> {
    pub tables: Tables<'a>,
    ghost good: { Good flags (seen tables) },
}
