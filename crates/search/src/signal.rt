// What can be searched: a condition that holds in some ticks of a row.
ghost use Rattle.std.specs.Prelude.{◌≡◌, ℕ, ◌<◌, ◌≤◌};
ghost use Rattle.height.specs.Meters.{counted};
ghost use Rattle.search.specs.Walks.{Course, Seen};

use height::meter::Meter;

// What evaluating a tick says: whether the condition holds there, and up to which tick, without it, that stays so.
#[derive(Clone, Copy)]
pub struct Evaluation {
    pub holds: bool,
    pub till: u64,
}

pub trait Signal {
    // in which ticks the condition holds, how many ticks there are, and where a walk goes from each
    ghost course: { Self → Course };

    // how many heights are worked out to evaluate a tick
    ghost cost: { Self → ℕ };

    // How many ticks the row has.
    fn end(&self) -> u64
        ensures value { result ≡ (course self.now).stop }
        ensures few { result ≤ 268435456 }
        ensures cheap { cost self.now ≤ 4 };

    // One tick is evaluated, and the heights worked out for it are counted.
    fn evaluate(&self, tick: u64, meter: &mut Meter) -> Evaluation
        requires { tick < (course self.now).stop }
        ensures seen { Seen (course self.now) tick result.holds result.till }
        ensures counted { meter.new.heights ≡ counted meter.old.heights (cost self.now) };
}
