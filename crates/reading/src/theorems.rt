// The promises of this layer, each the contract of a function that does nothing else. They speak of the definitions that the code's contracts cite.
ghost use Rattle.reading.specs.Promise.{AtZero, ByAdditions, GoesThrough, GoesThroughSpan, HalfAUnit, HaveRoom, InOrder, OfACubic, OnTheLine, ReadsOn};

// The higher of two ticks has no smaller binary64 number.
pub fn order_is_kept()
    ensures { InOrder }
{}

// The error of such a number is at most half a unit in its last place.
pub fn errors_are_small()
    ensures { HalfAUnit }
{}

// A height of 0 is +0.0 with no error, and on its line a body is seen at +0.0.
pub fn zero_is_plain()
    ensures { AtZero × OnTheLine }
{}

// The differences of a height are those of a cubic, additions alone lead from tick 0 to every tick, and they have room in 64 bits.
pub fn differences_make_heights()
    ensures { OfACubic × ByAdditions × HaveRoom }
{}

// A cursor gives every tick from where it stands, in order, and then ends; over one span too.
pub fn cursors_go_through()
    ensures { GoesThrough × GoesThroughSpan }
{}

// A part of a file is read as the file is.
pub fn parts_read_on()
    ensures { ReadsOn }
{}
