// Parts of the three spans at all borders.
use super::three::THREE;
use height::file::View;
use reading::part::part;
use std::test::Fail;

// From one span up to another, and the numbers of the part.
static CASES: [(u64, u64, &[i32]); 14] = [
    // In the file.
    (0, 0, &[]),
    (0, 1, &[-5000, 12_000, 0, 0]),
    (1, 2, &[7000, 0, -9000, 0]),
    (1, 3, &[7000, 0, -9000, 0, -2000, -3000, 1000, 500]),
    (2, 3, &[-2000, -3000, 1000, 500]),
    (
        0,
        3,
        &[
            -5000, 12_000, 0, 0, 7000, 0, -9000, 0, -2000, -3000, 1000, 500,
        ],
    ),
    (3, 3, &[]),
    // The first beyond the other.
    (1, 0, &[]),
    (3, 2, &[]),
    (u64::MAX, 3, &[]),
    // The other beyond the file.
    (0, 4, &[]),
    (3, 4, &[]),
    (4, 4, &[]),
    (0, u64::MAX, &[]),
];

#[test]
fn parts_hold_their_spans(rt: HostRuntime) -> Result<(), Fail> {
    let view = View::try_from(&THREE[..])?;
    for (first, end, numbers) in CASES.iter() {
        assert!(rt; part(view, *first, *end) == *numbers);
    }
    Ok(())
}
