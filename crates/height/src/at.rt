// A tick of a source.
ghost use Rattle.std.specs.Prelude.{◌≡◌, ◌^◌, ◌<◌, ◌≤◌, pos, Ok, Err, unsigned_abs};
ghost use Rattle.height.specs.Almanacs.{height_at, ticks as ticks_of};
ghost use Rattle.height.specs.Meters.{raised};
ghost use Rattle.height.specs.declared.refusal.Refusal.TheVariants.{Tick};

use super::meter::Meter;
use super::refusal::Refusal;
use super::source::Source;

// A source, and one of its ticks.
#[derive(Drop)]
pub struct At<'s, S: Source> {
    pub source: &'s S,
    pub tick: u64,
    ghost inside: { tick < ticks_of (S.almanac source.now) },
}

impl<'s, S: Source> At<'s, S> {
    // A tick that the source has; any other is refused.
    pub fn new(source: &'s S, tick: u64) -> Result<At<'s, S>, Refusal>
        ensures { elim result [ Ok a ↦ (tick < ticks_of (S.almanac source.now)) × (a.source.now ≡ source.now) × (a.tick ≡ tick) | Err e ↦ (tick < ticks_of (S.almanac source.now) → ⊥) × (e ≡ Tick (pos tick)) ] }
    {
        if tick < source.ticks() {
            Ok(At { source, tick })
        } else {
            Err(Refusal::Tick(tick as i128))
        }
    }

    // The height there, times 2^30.
    pub fn height(&self, meter: &mut Meter) -> i64
        ensures value { result ≡ height_at (S.almanac self.now.source.now) self.now.tick }
        ensures size { unsigned_abs result ≤ 2 ^ 57 }
        ensures counted { meter.new ≡ raised meter.old }
    {
        self.source.height(self.tick, meter)
    }
}
