// The promises of this layer, each the contract of a function that does nothing else. They speak of the definitions that the code's contracts cite.
ghost use Rattle.height.specs.Customary.{CheckedBySpans, HalfAdded, MeetsByJoins, Nested};
ghost use Rattle.height.specs.Promise.{AllTheWay, BySlope, FirstBeyond, Fits, Fits64, Level, RoundedNear, Touching};

// No height gets larger than four times the largest number; at 1,024 ticks none reaches 2^58.
pub fn heights_fit()
    ensures { Fits × Fits64 }
{}

// From tick to tick of a span the height changes by its slope at most.
pub fn changes_by_slope()
    ensures { BySlope }
{}

// All the way through a file whose spans meet, by the larger of two slopes.
pub fn changes_by_slope_all_the_way()
    ensures { AllTheWay }
{}

// A rounded height is off by half a thousandth at most, and is the upper one of two that are as near.
pub fn rounded_is_nearest()
    ensures { RoundedNear }
{}

// The place of a refused file is its first number beyond the bound, else how many numbers it has.
pub fn place_is_first_beyond()
    ensures { FirstBeyond }
{}

// The span 0 0 0 0 is level at 0; the span -1 4 -4 0 touches 0 in tick 512 alone.
pub fn examples_hold()
    ensures { Level × Touching }
{}

// The customary forms of the height, the rounding, the check and the meeting of spans say the same.
pub fn customary_forms_agree()
    ensures { Nested × HalfAdded × CheckedBySpans × MeetsByJoins }
{}
