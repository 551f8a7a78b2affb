// The library's calls as C exports them, under the same names and promises: each calls that of the crate `calls`.
#![tactic(auto)]

ghost use Rattle.calls.specs.Answers.{Saying, Says};
ghost use Rattle.calls.specs.ByteForm.{HasRule};
ghost use Rattle.calls.specs.Promises.{Begins, BuildCall, FitCall, JudgedPlainly, PrintCall, ReadCall, StepsTo, read_slots};
ghost use Rattle.tables.specs.Building.{slices};
ghost use Rattle.walking.specs.Answers.{Answered, Closed, Judged};
ghost use Rattle.automaton.specs.Tables.{tables_of};

use automaton::Edge;
use meaning::Date;

#[unsafe(no_mangle)]
pub extern "C" fn hourcricket_is_rule(profile: u8, count: usize, bytes: &[u8]) -> u8
    ensures { Says result (HasRule profile count bytes.now) }
{
    calls::rules::hourcricket_is_rule(profile, count, bytes)
}

#[unsafe(no_mangle)]
pub extern "C" fn hourcricket_judge_plain(
    profile: u8,
    count: usize,
    bytes: &[u8],
    series: &[Date],
) -> u8
    ensures { JudgedPlainly profile count bytes.now series.now result }
{
    calls::rules::hourcricket_judge_plain(profile, count, bytes, series)
}

#[unsafe(no_mangle)]
pub extern "C" fn hourcricket_build(
    profile: u8,
    count: usize,
    bytes: &[u8],
    masks: &mut [u64],
    starts: &mut [u16],
    accepts: &mut [u8],
    edges: &mut [Edge],
    states: &mut usize,
    edge_count: &mut usize,
) -> u8
    ensures { BuildCall profile count bytes.now (slices masks.old starts.old accepts.old edges.old) states.old edge_count.old result (slices masks.new starts.new accepts.new edges.new) states.new edge_count.new }
{
    calls::rules::hourcricket_build(
        profile, count, bytes, masks, starts, accepts, edges, states, edge_count,
    )
}

#[unsafe(no_mangle)]
pub extern "C" fn hourcricket_read(
    profile: u8,
    text: &[u8],
    count: &mut usize,
    bytes: &mut [u8],
    place: &mut usize,
    wanted: &mut u8,
) -> u8
    ensures { ReadCall profile text.now (read_slots count.old bytes.old place.old wanted.old) result (read_slots count.new bytes.new place.new wanted.new) }
{
    calls::texts::hourcricket_read(profile, text, count, bytes, place, wanted)
}

#[unsafe(no_mangle)]
pub extern "C" fn hourcricket_print(
    profile: u8,
    count: usize,
    bytes: &[u8],
    out: &mut [u8],
    length: &mut usize,
) -> u8
    ensures { PrintCall profile count bytes.now out.old length.old result out.new length.new }
{
    calls::texts::hourcricket_print(profile, count, bytes, out, length)
}

#[unsafe(no_mangle)]
pub extern "C" fn hourcricket_judge_tables(
    states: usize,
    edge_count: usize,
    starts: &[u16],
    accepts: &[u8],
    edges: &[Edge],
    series: &[Date],
) -> u8
    ensures { Saying (Judged (tables_of states edge_count starts.now accepts.now edges.now) series.now) result }
{
    calls::walks::hourcricket_judge_tables(states, edge_count, starts, accepts, edges, series)
}

#[unsafe(no_mangle)]
pub extern "C" fn hourcricket_walk_begin(low: &mut u64, high: &mut u64)
    ensures { Begins low.new high.new }
{
    calls::walks::hourcricket_walk_begin(low, high)
}

#[unsafe(no_mangle)]
pub extern "C" fn hourcricket_walk_step(
    states: usize,
    edge_count: usize,
    starts: &[u16],
    accepts: &[u8],
    edges: &[Edge],
    low: &mut u64,
    high: &mut u64,
    date: Date,
) -> u8
    ensures { StepsTo (tables_of states edge_count starts.now accepts.now edges.now) low.old high.old date result low.new high.new }
{
    calls::walks::hourcricket_walk_step(states, edge_count, starts, accepts, edges, low, high, date)
}

#[unsafe(no_mangle)]
pub extern "C" fn hourcricket_walk_answer(
    states: usize,
    edge_count: usize,
    starts: &[u16],
    accepts: &[u8],
    edges: &[Edge],
    low: u64,
    high: u64,
) -> u8
    ensures { Saying (Answered (tables_of states edge_count starts.now accepts.now edges.now) (record { low = low; high = high })) result }
{
    calls::walks::hourcricket_walk_answer(states, edge_count, starts, accepts, edges, low, high)
}

#[unsafe(no_mangle)]
pub extern "C" fn hourcricket_walk_closed(
    states: usize,
    edge_count: usize,
    starts: &[u16],
    accepts: &[u8],
    edges: &[Edge],
    low: u64,
    high: u64,
) -> u8
    ensures { Saying (Closed (tables_of states edge_count starts.now accepts.now edges.now) (record { low = low; high = high })) result }
{
    calls::walks::hourcricket_walk_closed(states, edge_count, starts, accepts, edges, low, high)
}

#[unsafe(no_mangle)]
pub extern "C" fn hourcricket_fit(
    states: usize,
    edge_count: usize,
    starts: &[u16],
    accepts: &[u8],
    edges: &[Edge],
    out: &mut [Date],
    dates: &mut usize,
) -> u8
    ensures { FitCall (tables_of states edge_count starts.now accepts.now edges.now) out.old dates.old result out.new dates.new }
{
    calls::walks::hourcricket_fit(states, edge_count, starts, accepts, edges, out, dates)
}
