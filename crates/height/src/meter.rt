// How many heights were worked out. Only the function that works one out can raise it.
ghost use Rattle.height.specs.Meters.{raised, unused};
ghost use Rattle.std.specs.Prelude.{◌≡◌};

#[derive(Clone, Copy)]
pub struct Meter {
    heights: u64,
}

impl Meter {
    pub fn new() -> Meter
        ensures { result ≡ unused }
    {
        Meter { heights: 0 }
    }

    // One height more; at the largest number it stays.
    pub(super) fn raise(&mut self)
        ensures { self.new ≡ raised self.old }
    {
        self.heights = self.heights.saturating_add(1);
    }

    pub fn heights(self) -> u64
        ensures { result ≡ self.heights }
    {
        self.heights
    }
}
