// The promises of this layer, each the contract of a function that does nothing else.
ghost use Rattle.crossing.specs.Promise.{InTurn, LevelAbove, Listed, LowerLine, MaySkip, TouchingAbove};

// Ticks of a span may be skipped if as many slopes are less than the distance from the level.
pub fn ticks_may_be_skipped()
    ensures { MaySkip }
{}

// Between two risings there is a setting, and between two settings a rising.
pub fn crossings_take_turns()
    ensures { InTurn }
{}

// A body above a line is above every lower line in the same tick.
pub fn lower_lines_too()
    ensures { LowerLine }
{}

// The listing of risings and settings has just these, in order of time, and they take turns.
pub fn listing_is_whole()
    ensures { Listed }
{}

// The file 0 0 0 0 is above the line 0 in all its ticks; -1 4 -4 0 in tick 512 only, where it rises, and it sets in the next.
pub fn examples_hold()
    ensures { LevelAbove × TouchingAbove }
{}
