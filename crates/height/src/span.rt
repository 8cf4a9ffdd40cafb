// A span by value: four numbers, in thousandths of a degree, of a cubic over its ticks.
ghost use Rattle.std.specs.Prelude.{◌≡◌, ◌^◌, ◌<◌, ◌≤◌, unsigned_abs};
ghost use Rattle.height.specs.Meters.{raised};
ghost use Rattle.height.specs.Spans.{height as height_of, slope as slope_of, Within};

use super::meter::Meter;
use integers::times;

#[derive(Clone, Copy, PartialEq, Eq, Debug)]
pub struct Span {
    pub a: i32,
    pub b: i32,
    pub c: i32,
    pub d: i32,
}

impl Span {
    // How many numbers a span has.
    pub const NUMBERS: usize = 4;

    // How many ticks a span has.
    pub const TICKS: u64 = 1024;

    // The most spans of a file.
    pub const MOST: u64 = 4096;

    // The largest size of a file's number.
    pub const BOUND: i32 = 16_777_216;

    // The height in a tick, times 2^30. This is the one function that works out a height, and it counts.
    // Numbers up to 2^25 are taken, so that a difference of two spans has a height too.
    pub fn height(self, tick: u64, meter: &mut Meter) -> i64
        requires inside { tick < 1024 }
        requires small { Within (2 ^ 25) self }
        ensures value { result ≡ height_of 1024 self tick }
        ensures size { unsigned_abs result ≤ 2 ^ 57 }
        ensures counted { meter.new ≡ raised meter.old }
    {
        meter.raise();
        let u = tick as u32;
        let square = u * u;
        let cube = u * square;
        let a = times(self.a, 1 << 30);
        let b = times(self.b, u * 1_048_576);
        let c = times(self.c, square * 1024);
        let d = times(self.d, cube);
        (a + b) + (c + d)
    }

    // How much the height, times 2^30, changes from one tick to the next at most.
    pub fn slope(self) -> u64
        ensures value { result ≡ slope_of 1024 self }
        ensures size { result < 2 ^ 54 }
    {
        let b = self.b.unsigned_abs() as u64;
        let c = self.c.unsigned_abs() as u64;
        let d = self.d.unsigned_abs() as u64;
        1_048_576 * (b + (2 * c + 3 * d))
    }
}
