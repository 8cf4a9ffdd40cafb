// Heights as binary64 numbers, by their bits.
use super::three::THREE;
use height::at::At;
use height::file::View;
use height::meter::Meter;
use height::refusal::Refusal;
use height::round::rounded;
use reading::near::near_at;
use std::num::f64_to_bits_with_nan;
use std::process::Abort;
use std::test::Fail;

// A span, a tick of it, and the bits of the height there and of its error.
static CASES: [([i32; 4], u64, u64, u64); 26] = [
    // Zero, and few binary digits.
    ([0, 0, 0, 0], 0, 0, 0),
    (
        [1, 0, 0, 0],
        0,
        0x3ff0_0000_0000_0000,
        0x3ca0_0000_0000_0000,
    ),
    (
        [-1, 0, 0, 0],
        1023,
        0xbff0_0000_0000_0000,
        0x3ca0_0000_0000_0000,
    ),
    (
        [3, 1, 0, 0],
        1,
        0x4008_0200_0000_0000,
        0x3cb0_0000_0000_0000,
    ),
    (
        [0, 0, 0, 1],
        1,
        0x3e10_0000_0000_0000,
        0x3ac0_0000_0000_0000,
    ),
    (
        [0, 0, 0, -1],
        1,
        0xbe10_0000_0000_0000,
        0x3ac0_0000_0000_0000,
    ),
    // Fifty-five digits, of which two go: below the middle, in it and down to even, above it, in it and up to even.
    (
        [16_777_216, 0, 0, 1],
        1,
        0x4170_0000_0000_0000,
        0x3e20_0000_0000_0000,
    ),
    (
        [16_777_216, 0, 0, 2],
        1,
        0x4170_0000_0000_0000,
        0x3e20_0000_0000_0000,
    ),
    (
        [16_777_216, 0, 0, 3],
        1,
        0x4170_0000_0000_0001,
        0x3e20_0000_0000_0000,
    ),
    (
        [16_777_216, 0, 0, 6],
        1,
        0x4170_0000_0000_0002,
        0x3e20_0000_0000_0000,
    ),
    (
        [-16_777_216, 0, 0, -1],
        1,
        0xc170_0000_0000_0000,
        0x3e20_0000_0000_0000,
    ),
    (
        [-16_777_216, 0, 0, -2],
        1,
        0xc170_0000_0000_0000,
        0x3e20_0000_0000_0000,
    ),
    (
        [-16_777_216, 0, 0, -3],
        1,
        0xc170_0000_0000_0001,
        0x3e20_0000_0000_0000,
    ),
    (
        [-16_777_216, 0, 0, -6],
        1,
        0xc170_0000_0000_0002,
        0x3e20_0000_0000_0000,
    ),
    // Fifty-four digits, of which one goes: down to even, up to even, and up to the next power of two.
    (
        [8_388_608, 0, 0, 1],
        1,
        0x4160_0000_0000_0000,
        0x3e10_0000_0000_0000,
    ),
    (
        [8_388_608, 0, 0, 3],
        1,
        0x4160_0000_0000_0002,
        0x3e10_0000_0000_0000,
    ),
    (
        [-8_388_608, 0, 0, -1],
        1,
        0xc160_0000_0000_0000,
        0x3e10_0000_0000_0000,
    ),
    (
        [-8_388_608, 0, 0, -3],
        1,
        0xc160_0000_0000_0002,
        0x3e10_0000_0000_0000,
    ),
    (
        [16_777_215, 1023, 1023, 1023],
        1,
        0x4170_0000_0000_0000,
        0x3e10_0000_0000_0000,
    ),
    (
        [-16_777_215, -1023, -1023, -1023],
        1,
        0xc170_0000_0000_0000,
        0x3e10_0000_0000_0000,
    ),
    // The largest heights, and some with many digits.
    (
        [16_777_216, 16_777_216, 16_777_216, 16_777_216],
        1023,
        0x418f_f401_ffe0_0000,
        0x3e30_0000_0000_0000,
    ),
    (
        [-16_777_216, -16_777_216, -16_777_216, -16_777_216],
        1023,
        0xc18f_f401_ffe0_0000,
        0x3e30_0000_0000_0000,
    ),
    (
        [16_777_215, 16_777_213, 16_777_211, 16_777_209],
        1021,
        0x418f_dc11_7d6b_8b18,
        0x3e30_0000_0000_0000,
    ),
    (
        [-16_777_216, -16_777_215, -16_777_213, -16_777_211],
        1019,
        0xc18f_c431_a93b_1f4e,
        0x3e30_0000_0000_0000,
    ),
    (
        [16_777_216, -16_777_216, 16_777_216, -16_777_216],
        777,
        0x4158_5368_2700_0000,
        0x3e00_0000_0000_0000,
    ),
    (
        [12_345, -67_891, 23_456, -78_901],
        511,
        0xc0d8_e682_1d89_cb00,
        0x3d80_0000_0000_0000,
    ),
];

// A tick of the three spans, the height there in whole thousandths, and its bits and those of its error.
static ROWS: [(u64, i64, u64, u64); 6] = [
    (0, -5000, 0xc0b3_8800_0000_0000, 0x3d60_0000_0000_0000),
    (427, 4, 0x400f_4000_0000_0000, 0x3cb0_0000_0000_0000),
    (1023, 6988, 0x40bb_4c48_0000_0000, 0x3d60_0000_0000_0000),
    (1500, 5055, 0x40b3_bf48_5800_0000, 0x3d60_0000_0000_0000),
    (2047, -1982, 0xc09e_f9b8_ca00_0000, 0x3d40_0000_0000_0000),
    (3071, -3500, 0xc0ab_58f8_c78f_a000, 0x3d50_0000_0000_0000),
];

// The height in a tick has these bits, and its error those.
fn check_near(
    rt: &impl Abort,
    view: View,
    tick: u64,
    height: u64,
    error: u64,
) -> Result<(), Refusal> {
    let near = near_at(&At::new(&view, tick)?);
    assert_eq!(rt; f64_to_bits_with_nan(near.height), height);
    assert_eq!(rt; f64_to_bits_with_nan(near.error), error);
    Ok(())
}

#[test]
fn heights_are_nearest(rt: HostRuntime) -> Result<(), Fail> {
    for (span, tick, height, error) in CASES.iter() {
        check_near(&rt, View::try_from(&span[..])?, *tick, *height, *error)?;
    }
    Ok(())
}

// The height in a tick is so many whole thousandths.
fn check_rounded(rt: &impl Abort, view: View, tick: u64, thousandths: i64) -> Result<(), Refusal> {
    let at = At::new(&view, tick)?;
    assert_eq!(rt; rounded(at.height(&mut Meter::new())), thousandths);
    Ok(())
}

#[test]
fn three_spans_have_these_heights(rt: HostRuntime) -> Result<(), Fail> {
    let view = View::try_from(&THREE[..])?;
    for (tick, thousandths, height, error) in ROWS.iter() {
        check_rounded(&rt, view, *tick, *thousandths)?;
        check_near(&rt, view, *tick, *height, *error)?;
    }
    Ok(())
}
