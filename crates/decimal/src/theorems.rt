// What holds of the texts, each statement the contract of a function that does nothing else. The
// statements are those of `specs/Promise.antt`.
ghost use Rattle.decimal.specs.Promise.{ErrorExact, Exact, Few, FloatExact, NoZeroAtTheEnd, ReadsBack, WrittenNear, Zero};

// The figures behind the point are the fraction exactly: they are as many as its binary places at
// most, and the last of them is no 0.
pub fn figures_are_exact()
    ensures { Exact × Few × NoZeroAtTheEnd }
{}

// What is written of a whole number over a power of two is read back as just that number.
pub fn texts_are_read_back()
    ensures { ReadsBack }
{}

// The text of the nearest binary64 number says exactly that number.
pub fn floats_are_exact()
    ensures { FloatExact }
{}

// The text of half of its last place says exactly that.
pub fn errors_are_exact()
    ensures { ErrorExact }
{}

// The exact fraction is off the number that is written by at most the half place that is written.
pub fn written_numbers_are_near()
    ensures { WrittenNear }
{}

// Zero is written as `0`, and so is half of its last place.
pub fn zero_is_plain()
    ensures { Zero }
{}
