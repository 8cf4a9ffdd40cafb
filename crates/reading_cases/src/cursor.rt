// The cursor against heights that are worked out one by one.
use super::three::THREE;
use height::file::View;
use height::meter::Meter;
use height::source::Source;
use height::span::Span;
use reading::answer::Moment;
use reading::cursor::Cursor;
use reading::heights::all_heights;
use reading::stretch::Stretch;
use std::alloc::{AllocError, Global};
use std::process::Abort;
use std::test::Fail;

// Spans of the largest numbers, with every change of sign that matters.
static LARGEST: [i32; 16] = [
    16_777_216,
    16_777_216,
    16_777_216,
    16_777_216,
    -16_777_216,
    -16_777_216,
    -16_777_216,
    -16_777_216,
    16_777_216,
    -16_777_216,
    16_777_216,
    -16_777_216,
    -16_777_216,
    16_777_216,
    16_777_216,
    -16_777_216,
];

// A file of as many spans as there may be, of numbers that jump about.
fn longest(heap: Global) -> Result<Vec<i32>, AllocError> {
    let mut numbers = Vec::new(heap);
    let mut state: u32 = 1;
    for _ in 0..16384 {
        state = state.wrapping_mul(1_664_525).wrapping_add(1_013_904_223);
        numbers.push((state >> 7) as i32 - 16_777_216)?;
    }
    Ok(numbers)
}

// What was given is the tick that comes next, with the height that is worked out for it.
fn check_moment(rt: &impl Abort, view: View, moment: Moment, tick: u64) {
    assert!(rt; moment.tick == tick && tick < view.ticks());
    assert_eq!(rt; moment.height, view.height(tick, &mut Meter::new()));
    assert_eq!(rt; moment.first, tick % Span::TICKS == 0);
}

// Goes through a file tick by tick.
fn check_ticks(rt: &impl Abort, view: View) {
    for (tick, moment) in Cursor::new(view).enumerate() {
        check_moment(rt, view, moment, tick as u64);
    }
    assert_eq!(rt; Cursor::new(view).count() as u64, view.ticks());
}

// Goes through a file span by span.
fn check_spans(rt: &impl Abort, view: View) {
    for span in 0..view.spans() {
        let before = Span::TICKS * span;
        let ticks = before..before + Span::TICKS;
        for (tick, moment) in ticks.zip(Stretch::new(view, span)) {
            check_moment(rt, view, moment, tick);
        }
        assert_eq!(rt; Stretch::new(view, span).count() as u64, Span::TICKS);
    }
    assert_eq!(rt; Span::TICKS * view.spans(), view.ticks());
}

fn check_through(rt: &impl Abort, numbers: &[i32]) -> Result<(), Fail> {
    let view = View::try_from(numbers)?;
    check_ticks(rt, view);
    check_spans(rt, view);
    Ok(())
}

#[test]
fn cursors_give_all_heights(rt: HostRuntime) -> Result<(), Fail> {
    check_through(&rt, &THREE)?;
    check_through(&rt, &LARGEST)?;
    let numbers = longest(rt.alloc())?;
    check_through(&rt, numbers.as_slice())
}

// A tick to set the cursor to, whether it is taken, and the tick that is given next, if any.
static SETS: [(u64, bool, Option<u64>); 9] = [
    (0, true, Some(0)),
    (3071, true, Some(3071)),
    (3072, false, None),
    (1023, true, Some(1023)),
    (u64::MAX, false, Some(1024)),
    (1024, true, Some(1024)),
    (2047, true, Some(2047)),
    (4096, false, Some(2048)),
    (427, true, Some(427)),
];

#[test]
fn cursors_are_set(rt: HostRuntime) -> Result<(), Fail> {
    let view = View::try_from(&THREE[..])?;
    let mut cursor = Cursor::new(view);
    for (tick, taken, given) in SETS.iter() {
        assert_eq!(rt; cursor.set(*tick).is_ok(), *taken);
        assert_eq!(rt; cursor.tick(), given.unwrap_or(3072));
        match cursor.next() {
            Some(moment) => check_moment(&rt, view, moment, given.unwrap_or(3072)),
            None => assert_eq!(rt; *given, None),
        }
    }
    Ok(())
}

#[test]
fn all_heights_are_there(rt: HostRuntime) -> Result<(), Fail> {
    let view = View::try_from(&THREE[..])?;
    let heights = all_heights(rt.alloc(), view)?;
    assert_eq!(rt; heights.len(), 3072);
    for moment in Cursor::new(view) {
        assert_eq!(rt;
            heights.get(moment.tick as usize).copied(),
            Some(moment.height)
        );
    }
    Ok(())
}
