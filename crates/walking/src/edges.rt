// The test of an edge.
ghost use Rattle.std.specs.Prelude.{◌≡◌};
ghost use Rattle.meaning.specs.Flags.{flags};
ghost use Rattle.automaton.specs.Tables.{allows, word};
ghost use Rattle.walking.specs.Moving.{barred_by};

use automaton::edges::{edge_absent, edge_of, edge_present};
use automaton::{Edge, StateNo};
use meaning::Date;

// The flags of an edge that has these, without a target.
fn flags_of(present: Date, absent: Date) -> Edge
    ensures { result ≡ word flags present absent 0 }
{
    edge_of(present, absent, StateNo(0))
}

// A date, beside the flags for which it bars an edge: those that it lacks, where an edge has what must be present, and those that it has, where an edge has
// what must be absent. Made once a date, it leaves one test for each edge.
#[derive(Clone, Copy)]
pub(crate) struct Passing {
    date: Date,
    barred: Edge,
    ghost known: { barred ≡ barred_by date },
}

impl Passing {
    pub(crate) fn on(date: Date) -> Passing
        ensures { result.date ≡ date }
    {
        Passing {
            date,
            barred: flags_of(!date, date),
        }
    }

    // Whether an edge allows the date.
    pub(crate) fn allowed_by(self, edge: Edge) -> bool
        ensures { result ≡ allows flags edge self.date }
    {
        flags_of(edge_present(edge), edge_absent(edge)) & self.barred == 0
    }
}
