// The promises of this layer, each the contract of a function that does nothing else.
ghost use Rattle.sight.specs.Promise.{SkipsMost};

// As many ticks are skipped as the rule allows, and no more.
pub fn skips_as_many_as_it_may()
    ensures { SkipsMost }
{}
