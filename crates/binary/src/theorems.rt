// What holds of the nearest binary64 number and of half a place. Each function's contract is a
// statement of `specs/Promise.antt`, for any number of binary places up to 500.
ghost use Rattle.binary.specs.Promise.{Whole, Near, HalfAUnit, NotNegative, Zero, InOrder, Exact};

// The nearest number is a whole number over the same power of two.
pub fn whole_stands()
    ensures { Whole }
{}

// The exact fraction is at most half a place off the nearest number.
pub fn near_stands()
    ensures { Near }
{}

// Half a place is at most half a unit in the last place of the nearest number.
pub fn half_a_unit_stands()
    ensures { HalfAUnit }
{}

// A fraction that is not negative has a nearest number that is not.
pub fn not_negative_stands()
    ensures { NotNegative }
{}

// Zero is +0.0.
pub fn zero_stands()
    ensures { Zero }
{}

// The larger fraction has no smaller nearest number.
pub fn in_order_stands()
    ensures { InOrder }
{}

// A number of at most 53 binary digits is kept exactly.
pub fn exact_stands()
    ensures { Exact }
{}
