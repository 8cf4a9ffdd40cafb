// A body seen over a line, by the bits of how far it is above, or hidden.
use height::at::At;
use height::file::View;
use height::line::Line;
use reading::answer::Sighting;
use reading::sighting::sighting_at;
use std::num::f64_to_bits_with_nan;
use std::test::Fail;

// A span, a line and a tick, and the bits of how far the body is above the line there, if it is seen.
static CASES: [([i32; 4], i64, u64, Option<u64>); 20] = [
    // Above the line and below it, a tick apart.
    ([-5000, 12_000, 0, 0], 0, 427, Some(0x400f_4000_0000_0000)),
    ([-5000, 12_000, 0, 0], 0, 426, None),
    ([7000, 0, -9000, 0], 0, 903, Some(0x3ff4_9d58_0000_0000)),
    ([7000, 0, -9000, 0], 0, 904, None),
    // On the line, and a little off it.
    ([-5000, 12_000, 0, 0], -5000, 0, Some(0)),
    ([-5000, 12_000, 0, 0], -4999, 0, None),
    ([-1, 4, -4, 0], 0, 512, Some(0)),
    ([-1, 4, -4, 0], 0, 511, None),
    ([-1, 4, -4, 0], 0, 513, None),
    ([0, 0, 0, 1], 0, 1, Some(0x3e10_0000_0000_0000)),
    ([0, 0, 0, 0], 0, 1, Some(0)),
    ([0, 0, 0, -1], 0, 1, None),
    // The largest lines and heights.
    (
        [16_777_216, 0, 0, 6],
        16_777_216,
        1,
        Some(0x3e38_0000_0000_0000),
    ),
    (
        [16_777_216, 0, 0, 6],
        -16_777_216,
        1,
        Some(0x4180_0000_0000_0001),
    ),
    ([-16_777_216, 0, 0, 0], -16_777_216, 5, Some(0)),
    ([-16_777_216, 0, 0, -1], -16_777_216, 1, None),
    ([-16_777_216, 0, 0, 0], 16_777_216, 5, None),
    (
        [16_777_216, 16_777_216, 16_777_216, 16_777_216],
        -16_777_216,
        1023,
        Some(0x4193_fa00_fff0_0000),
    ),
    (
        [-16_777_216, -16_777_216, -16_777_216, -16_777_216],
        -16_777_216,
        1023,
        None,
    ),
    (
        [-16_777_216, -16_777_216, -16_777_216, -16_777_216],
        16_777_216,
        1023,
        None,
    ),
];

// The bits of a sighting's number, if there is one.
fn bits(sighting: Sighting) -> Option<u64> {
    match sighting {
        Sighting::Seen(above) => Some(f64_to_bits_with_nan(above)),
        Sighting::Hidden => None,
    }
}

#[test]
fn bodies_are_seen_or_hidden(rt: HostRuntime) -> Result<(), Fail> {
    for (span, line, tick, above) in CASES.iter() {
        let view = View::try_from(&span[..])?;
        let line = Line::try_from(*line)?;
        let at = At::new(&view, *tick)?;
        assert_eq!(rt; bits(sighting_at(&at, line)), *above);
    }
    Ok(())
}
