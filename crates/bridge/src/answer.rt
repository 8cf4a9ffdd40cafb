// What is handed out. Where something is refused, all other fields are 0 or false: C has no Option and no Result.
ghost use Rattle.bridge.specs.Answers.{first_told, gap_told, nothing, sighting_told};
ghost use Rattle.bridge.specs.Tables.{table_told};
ghost use Rattle.binary.specs.Nearest.{nearest_over};
ghost use Rattle.std.specs.Prelude.{◌≡◌, false, pos};

use super::highest::Peak;
use super::refuse::NOTHING;
use super::table::Filled;
use almanac::ask::First;
use reading::answer::{Near, Sighting};

// The number and the place of a refusal; the number is 0 where nothing is refused, and so is the place.
#[repr(C)]
#[derive(Clone, Copy, Default)]
pub struct Refused {
    pub number: u64,
    pub place: u64,
}

// The first tick, and how many heights were worked out to find it.
#[repr(C)]
#[derive(Clone, Copy, Default)]
pub struct FirstAnswer {
    pub refused: Refused,
    // Whether there is such a tick; if not, `tick` is 0.
    pub found: bool,
    pub tick: u64,
    pub evaluations: u64,
}

// A height in whole thousandths.
#[repr(C)]
#[derive(Clone, Copy, Default)]
pub struct HeightAnswer {
    pub refused: Refused,
    pub height: i64,
}

// A height as a binary64 number, and how far off it is at most.
#[repr(C)]
#[derive(Clone, Copy, Default)]
pub struct NearAnswer {
    pub refused: Refused,
    pub height: f64,
    pub error: f64,
}

// Whether a body is seen over a line, and how many thousandths above it; 0 where it is hidden.
#[repr(C)]
#[derive(Clone, Copy, Default)]
pub struct SightingAnswer {
    pub refused: Refused,
    pub seen: bool,
    pub above: f64,
}

// A part of the lent numbers: the index of its first number, and how many it has. Both are 0 where it is empty.
#[repr(C)]
#[derive(Clone, Copy, Default)]
pub struct Part {
    pub place: u64,
    pub length: u64,
}

// The first span that does not meet the next one.
#[repr(C)]
#[derive(Clone, Copy, Default)]
pub struct GapAnswer {
    pub refused: Refused,
    // Whether there is such a span; if not, `span` is 0.
    pub found: bool,
    pub span: u64,
}

// How many risings and settings there are, and how many heights were worked out to find them.
#[repr(C)]
#[derive(Clone, Copy, Default)]
pub struct TableAnswer {
    pub refused: Refused,
    pub entries: u64,
    // Whether the first entry is a rising; false where there is none. Risings and settings take turns.
    pub rises: bool,
    pub evaluations: u64,
}

// In how many ticks a body is above a line.
#[repr(C)]
#[derive(Clone, Copy, Default)]
pub struct CountAnswer {
    pub refused: Refused,
    pub ticks: u64,
}

// The first of the ticks in which a body is highest.
#[repr(C)]
#[derive(Clone, Copy, Default)]
pub struct HighestAnswer {
    pub refused: Refused,
    pub tick: u64,
}

impl From<Refused> for FirstAnswer {
    ghost from_gives = { λ e r. r ≡ record { refused = e; found = false; tick = 0; evaluations = 0 } };

    fn from(refused: Refused) -> FirstAnswer {
        FirstAnswer {
            refused,
            ..FirstAnswer::default()
        }
    }
}

impl From<First> for FirstAnswer {
    ghost from_gives = { λ a r. r ≡ first_told a.tick a.evaluations };

    fn from(first: First) -> FirstAnswer {
        FirstAnswer {
            refused: NOTHING,
            found: first.tick.is_some(),
            tick: first.tick.unwrap_or(0),
            evaluations: first.evaluations,
        }
    }
}

impl From<Refused> for HeightAnswer {
    ghost from_gives = { λ e r. r ≡ record { refused = e; height = pos 0 } };

    fn from(refused: Refused) -> HeightAnswer {
        HeightAnswer {
            refused,
            ..HeightAnswer::default()
        }
    }
}

impl From<i64> for HeightAnswer {
    ghost from_gives = { λ h r. r ≡ record { refused = nothing; height = h } };

    fn from(height: i64) -> HeightAnswer {
        HeightAnswer {
            refused: NOTHING,
            height,
        }
    }
}

impl From<Refused> for NearAnswer {
    ghost from_gives = { λ e r. r ≡ record { refused = e; height = nearest_over 30 (pos 0); error = nearest_over 30 (pos 0) } };

    fn from(refused: Refused) -> NearAnswer {
        NearAnswer {
            refused,
            ..NearAnswer::default()
        }
    }
}

impl From<Near> for NearAnswer {
    ghost from_gives = { λ x r. r ≡ record { refused = nothing; height = x.height; error = x.error } };

    fn from(near: Near) -> NearAnswer {
        NearAnswer {
            refused: NOTHING,
            height: near.height,
            error: near.error,
        }
    }
}

impl From<Refused> for SightingAnswer {
    ghost from_gives = { λ e r. r ≡ record { refused = e; seen = false; above = nearest_over 30 (pos 0) } };

    fn from(refused: Refused) -> SightingAnswer {
        SightingAnswer {
            refused,
            ..SightingAnswer::default()
        }
    }
}

impl From<Sighting> for SightingAnswer {
    ghost from_gives = { λ x r. r ≡ sighting_told x };

    fn from(sighting: Sighting) -> SightingAnswer {
        match sighting {
            Sighting::Seen(above) => SightingAnswer {
                refused: NOTHING,
                seen: true,
                above,
            },
            Sighting::Hidden => SightingAnswer::default(),
        }
    }
}

impl From<Refused> for GapAnswer {
    ghost from_gives = { λ e r. r ≡ record { refused = e; found = false; span = 0 } };

    fn from(refused: Refused) -> GapAnswer {
        GapAnswer {
            refused,
            ..GapAnswer::default()
        }
    }
}

impl From<Option<u64>> for GapAnswer {
    ghost from_gives = { λ o r. r ≡ gap_told o };

    fn from(span: Option<u64>) -> GapAnswer {
        GapAnswer {
            refused: NOTHING,
            found: span.is_some(),
            span: span.unwrap_or(0),
        }
    }
}

impl From<Refused> for TableAnswer {
    ghost from_gives = { λ e r. r ≡ record { refused = e; entries = 0; rises = false; evaluations = 0 } };

    fn from(refused: Refused) -> TableAnswer {
        TableAnswer {
            refused,
            ..TableAnswer::default()
        }
    }
}

impl From<Filled> for TableAnswer {
    ghost from_gives = { λ x r. r ≡ table_told x };

    fn from(filled: Filled) -> TableAnswer {
        TableAnswer {
            refused: NOTHING,
            entries: filled.entries,
            rises: filled.first.unwrap_or(false),
            evaluations: filled.evaluations,
        }
    }
}

impl From<Refused> for CountAnswer {
    ghost from_gives = { λ e r. r ≡ record { refused = e; ticks = 0 } };

    fn from(refused: Refused) -> CountAnswer {
        CountAnswer {
            refused,
            ..CountAnswer::default()
        }
    }
}

impl From<u64> for CountAnswer {
    ghost from_gives = { λ n r. r ≡ record { refused = nothing; ticks = n } };

    fn from(ticks: u64) -> CountAnswer {
        CountAnswer {
            refused: NOTHING,
            ticks,
        }
    }
}

impl From<Refused> for HighestAnswer {
    ghost from_gives = { λ e r. r ≡ record { refused = e; tick = 0 } };

    fn from(refused: Refused) -> HighestAnswer {
        HighestAnswer {
            refused,
            ..HighestAnswer::default()
        }
    }
}

impl From<Peak> for HighestAnswer {
    ghost from_gives = { λ p r. r ≡ record { refused = nothing; tick = p.tick } };

    fn from(peak: Peak) -> HighestAnswer {
        HighestAnswer {
            refused: NOTHING,
            tick: peak.tick,
        }
    }
}
