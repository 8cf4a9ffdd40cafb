// All risings and settings of a condition, in one walk.
ghost use Rattle.std.specs.Prelude.{◌≡◌, ◌-◌, ◌<◌, ◌≤◌, IfOk};
ghost use Rattle.crossing.specs.Events.{crossings as crossings_of};
ghost use Rattle.search.specs.Walks.{Steps};

use super::signal::Signal;
use super::walk::Crossings;
use crossing::event::Crossing;
use std::alloc::{AllocError, Global};

// Risings and settings in order of time, and how many ticks were evaluated for them.
#[derive(Drop)]
pub struct Listing {
    pub crossings: Vec<Crossing>,
    pub evaluations: u64,
}

// All of the row's ticks from one on.
pub fn crossings<S: Signal>(heap: Global, signal: &S, from: u64) -> Result<Listing, AllocError>
    ensures { IfOk result (λ l. (l.crossings.items ≡ crossings_of (S.course signal.now).so «from» ((S.course signal.now).stop - «from»)) × Steps (S.course signal.now) («from» - 1) «from» l.evaluations) }
{
    let mut walk = Crossings::new(signal, from);
    let mut crossings = Vec::new(heap);
    // A `for` over `walk.by_ref()` was tried: it tells a proof nothing of `walk` behind it.
    while let Some(crossing) = walk.next() {
        crossings.push(crossing)?;
    }
    Ok(Listing {
        crossings,
        evaluations: walk.evaluations(),
    })
}
