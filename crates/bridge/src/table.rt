// All risings and settings, written into lent room.
ghost use Rattle.almanac.specs.Refuses.{Refuses};
ghost use Rattle.bridge.specs.Tables.{FilledWith, TableMade, TableSays, table_told};
ghost use Rattle.std.specs.Prelude.{◌≡◌, Ok, Err, slice_set};

use super::answer::TableAnswer;
use super::refuse::tell;
use crossing::theorems::listing_is_whole;
use height::at::At;
use height::file::View;
use height::line::Line;
use height::refusal::Refusal;
use height::source::Source;
use search::signal::Signal;
use search::walk::Crossings;
use sight::sight::Sight;

// How many risings and settings there are, whether the first of them is a rising, and how many ticks were evaluated.
#[derive(Clone, Copy)]
pub struct Filled {
    pub entries: u64,
    pub first: Option<bool>,
    pub evaluations: u64,
}

// Writes a tick at an index, if there is room. A slice's `get_mut` was tried, and tells a proof only the length.
fn put(into: &mut [u64], at: u64, tick: u64)
    ensures { into.new ≡ slice_set into.old at tick }
{
    let at = at as usize;
    if at < into.len() {
        into[at] = tick;
    }
}

// The room is lent by C, as a slice. The ticks of all risings and settings of the row's ticks from one on, in one walk: as many as there is room for.
pub fn fill<S: Signal>(signal: &S, from: u64, into: &mut [u64]) -> Filled
    ensures { FilledWith (S.course signal.now) «from» into.old into.new result }
{
    let mut walk = Crossings::new(signal, from);
    let mut entries = 0;
    let mut first = None;
    // A `for` over `walk.by_ref()` was tried: `walk` is lent to it, so no proof knows the evaluations behind it.
    while let Some(crossing) = walk.next() {
        put(into, entries, crossing.tick);
        first = first.or(Some(crossing.rises));
        entries += 1;
    }
    Filled {
        entries,
        first,
        evaluations: walk.evaluations(),
    }
}

// The table of a file from one tick up to another, or why it is refused, with nothing written.
fn table_in(
    spans: &[i32],
    line: i64,
    from: u64,
    end: u64,
    into: &mut [u64],
) -> Result<Filled, Refusal>
    ensures { elim result [ Ok f ↦ TableMade spans.now line «from» «end» into.old into.new (table_told f) | Err e ↦ (into.new ≡ into.old) × Refuses spans.now line «from» 0 e ] }
{
    let view = View::try_from(spans)?;
    let line = Line::try_from(line)?;
    At::new(&view, from)?;
    listing_is_whole();
    let sight = Sight::new(view, line.level(), end);
    Ok(fill(&sight, from, into))
}

// All risings and settings in the ticks from one up to another, without it, or up to the file's end if that comes first.
// Their ticks are written in order, as many as there is room for; how many there are is answered.
#[unsafe(no_mangle)]
pub extern "C" fn pocketmica_table(
    spans: &[i32],
    line: i64,
    from: u64,
    end: u64,
    into: &mut [u64],
) -> TableAnswer
    ensures { TableSays spans.now line «from» «end» into.old into.new result }
{
    tell(table_in(spans, line, from, end, into))
}
