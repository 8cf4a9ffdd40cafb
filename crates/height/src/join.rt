// Whether neighbouring spans meet.
ghost use Rattle.std.specs.Prelude.{ℕ, suc, ◌<◌, Some, None, Decides};
ghost use Rattle.height.specs.Almanacs.{AllMeet, Meets};

use super::meter::Meter;
use super::source::Source;

// Whether span i meets the next one.
fn meets<S: Source>(source: &S, i: u64) -> bool
    requires inside { suc i < (S.almanac source.now).spans }
    requires small { i < 4096 }
    ensures { Decides result (Meets (S.almanac source.now) i) }
{
    let mut meter = Meter::new();
    let n = source.span_ticks();
    let one = source.span(i);
    let next = source.span(i + 1);
    let last = one.height(n - 1, &mut meter);
    let first = next.height(0, &mut meter);
    first.abs_diff(last) <= one.slope().max(next.slope())
}

// The first span that does not meet the next one; none where all meet.
pub fn first_gap<S: Source>(source: &S) -> Option<u64>
    ensures { elim result [ None ↦ AllMeet (S.almanac source.now) | Some i ↦ (suc i < (S.almanac source.now).spans) × (Meets (S.almanac source.now) i → ⊥) × ((j : ℕ) → j < i → Meets (S.almanac source.now) j) ] }
{
    let joins = source.spans() - 1;
    (0..joins).find(|i| !meets(source, *i))
}
