// Cases for the whole almanac. Expected values were worked out elsewhere, by exact integers, or come from the search that evaluates every tick.
#![tactic(auto)]

#[cfg(test)]
mod heights;
#[cfg(test)]
mod random;

#[cfg(test)]
mod tests {
    use super::heights::{Case, HEIGHTS};
    use super::random::Dice;
    use almanac::almanac::Almanac;
    use almanac::entry::{When, first_of, height_of, spans_of, tick_of};
    use crossing::event::Event;
    use height::file::View;
    use height::join::first_gap;
    use height::refusal::Refusal;
    use height::round::rounded;
    use height::source::Source;
    use height::view::check as check_file;
    use sight::every::first_of_every;
    use std::alloc::Global;
    use std::process::Abort;
    use std::test::Fail;

    // Three spans that meet.
    const THREE: [i32; 12] = [
        -5000, 12000, 0, 0, 7000, 0, -9000, 0, -2000, -3000, 1000, 500,
    ];

    fn exact(numbers: &[i32], tick: u64) -> Result<i64, Refusal> {
        Almanac::try_from(numbers)?.exact(tick)
    }

    // One case of the table.
    fn height_case(rt: &impl Abort, case: &Case) {
        assert_eq!(rt; exact(&case.span, case.tick), Ok(case.exact));
        assert_eq!(rt; rounded(case.exact), case.rounded);
        assert_eq!(rt;
            height_of(&case.span, case.tick),
            When::Stands(case.rounded)
        );
    }

    #[test]
    fn heights(rt: HostRuntime) {
        for case in &HEIGHTS {
            height_case(&rt, case);
        }
    }

    #[test]
    fn worked(rt: HostRuntime) {
        assert_eq!(rt; first_of(&THREE, 0, 0, 0), When::At(427));
        assert_eq!(rt; first_of(&THREE, 0, 1000, 1), When::Never);
        assert_eq!(rt; first_of(&THREE, 0, 0, 2), When::At(1928));
        assert_eq!(rt; height_of(&THREE, 3071), When::Stands(-3500));
        assert_eq!(rt; first_of(&[-1, 4, -4, 0], 0, 0, 1), When::At(512));
        assert_eq!(rt; first_of(&[-1, 4, -4, 0], 0, 512, 2), When::At(513));
        assert_eq!(rt; first_of(&[0, 0, 0, 0], 0, 1023, 0), When::At(1023));
        assert_eq!(rt; tick_of(2, 1023), 3071);
        assert_eq!(rt; spans_of(&THREE, 1, 2).len(), 4);
    }

    // A refusal by the entries has its number; by the checked almanac its place too.
    #[test]
    fn refusals(rt: HostRuntime) {
        assert_eq!(rt; first_of(&[], 99_999_999, 9, 9), When::Refused(1));
        assert_eq!(rt; first_of(&THREE, 16_777_217, 9999, 9), When::Refused(2));
        assert_eq!(rt; first_of(&THREE, -16_777_216, 3072, 9), When::Refused(3));
        assert_eq!(rt; first_of(&THREE, 16_777_216, 3071, 3), When::Refused(4));
        assert_eq!(rt; height_of(&THREE, 3072), When::Refused(3));
        assert_eq!(rt; exact(&THREE, 3072), Err(Refusal::Tick(3072)));
        assert_eq!(rt;
            exact(&THREE, u64::MAX),
            Err(Refusal::Tick(18_446_744_073_709_551_615))
        );
        assert_eq!(rt; check_file(&[]), Err(Refusal::File(0)));
        assert_eq!(rt; check_file(&[1, 2, 3]), Err(Refusal::File(3)));
        assert_eq!(rt; check_file(&[1, 2, 3, 4, 5]), Err(Refusal::File(5)));
        assert_eq!(rt; check_file(&[1, 16_777_217, 3]), Err(Refusal::File(1)));
        assert_eq!(rt; check_file(&[i32::MIN, 2, 3, 4]), Err(Refusal::File(0)));
        assert_eq!(rt;
            check_file(&[-16_777_216, 16_777_216, 3, i32::MAX]),
            Err(Refusal::File(3))
        );
        assert_eq!(rt; check_file(&[-16_777_216, 16_777_216, 3, 4]), Ok(()));
    }

    // So many numbers, all 0 but the one at a place.
    fn row(heap: Global, count: usize, place: usize, number: i32) -> Result<Vec<i32>, Fail> {
        let mut numbers = Vec::new(heap);
        for i in 0..count {
            numbers.push(if i == place { number } else { 0 })?;
        }
        Ok(numbers)
    }

    #[test]
    fn sizes(rt: HostRuntime) -> Result<(), Fail> {
        let heap = rt.alloc();
        assert_eq!(rt; check_file(row(heap, 16_384, 0, 1)?.as_slice()), Ok(()));
        assert_eq!(rt;
            check_file(row(heap, 16_383, 0, 1)?.as_slice()),
            Err(Refusal::File(16_383))
        );
        assert_eq!(rt;
            check_file(row(heap, 16_388, 0, 1)?.as_slice()),
            Err(Refusal::File(16_388))
        );
        for place in [0, 1, 8_191, 16_383] {
            assert_eq!(rt;
                check_file(row(heap, 16_384, place, 16_777_216)?.as_slice()),
                Ok(())
            );
            assert_eq!(rt;
                check_file(row(heap, 16_384, place, -16_777_217)?.as_slice()),
                Err(Refusal::File(place as u64))
            );
            assert_eq!(rt;
                check_file(row(heap, 16_384, place, i32::MAX)?.as_slice()),
                Err(Refusal::File(place as u64))
            );
        }
        Ok(())
    }

    fn gap(numbers: &[i32]) -> Result<Option<u64>, Refusal> {
        Ok(first_gap(&View::try_from(numbers)?))
    }

    #[test]
    fn joins(rt: HostRuntime) {
        assert_eq!(rt; gap(&THREE), Ok(None));
        // from the last tick of 0 0 0 0 to the first of a b 0 0 the height changes by a 2^30, and the slope is 2^20 b
        assert_eq!(rt; gap(&[0, 0, 0, 0, 1, 1024, 0, 0]), Ok(None));
        assert_eq!(rt; gap(&[0, 0, 0, 0, 1, 1023, 0, 0]), Ok(Some(0)));
        assert_eq!(rt; gap(&[0, 0, 0, 0, 0, 0, 0, 0, -1, 0, 511, 0]), Ok(Some(1)));
        assert_eq!(rt; gap(&[0, 0, 0, 0, 0, 0, 0, 0, -1, 0, 512, 0]), Ok(None));
    }

    // One question, by the search that skips and by the one that evaluates every tick.
    fn agree(
        rt: &impl Abort,
        numbers: &[i32],
        line: i64,
        event: Event,
        from: u64,
    ) -> Result<(), Fail> {
        let view = View::try_from(numbers)?;
        assert!(rt; from < view.ticks());
        let every = first_of_every(&view, line.wrapping_mul(1_073_741_824), event, from);
        let expected = match every {
            Some(tick) => When::At(tick),
            None => When::Never,
        };
        assert_eq!(rt; first_of(numbers, line, from, u64::from(event)), expected);
        Ok(())
    }

    // The largest numbers of a file: small ones, large ones, or level spans, with a jump to the line at the join.
    const SIZES: [u32; 4] = [3, 40, 16_777_216, 0];

    // A file of two spans, of numbers up to a size.
    fn file(dice: &mut Dice, size: u32) -> [i32; 8] {
        let level = dice.within(2);
        let mut numbers = [0; 8];
        for (i, number) in numbers.iter_mut().enumerate() {
            *number = if i % 4 == 0 { level } else { dice.within(size) };
        }
        numbers
    }

    #[test]
    fn random_questions(rt: HostRuntime) -> Result<(), Fail> {
        let mut dice = Dice::new(2026);
        for turn in 0..3000 {
            let numbers = file(&mut dice, SIZES[turn % 4]);
            let line = dice.within(2) as i64;
            let from = dice.below(2048);
            for event in [Event::Above, Event::Rise, Event::Set] {
                agree(&rt, &numbers, line, event, from)?;
            }
        }
        Ok(())
    }

    // Heights that touch the line in one tick: a square that comes up to it in the middle of its ticks, moved by thousandths.
    #[test]
    fn touching_questions(rt: HostRuntime) -> Result<(), Fail> {
        let mut dice = Dice::new(512);
        for lift in -3..4i32 {
            for width in [1, 2, 4, 9, 100] {
                let four = 4i32.wrapping_mul(width);
                let numbers = [
                    lift.wrapping_sub(width),
                    four,
                    0i32.wrapping_sub(four),
                    0,
                    lift,
                    0,
                    0,
                    0,
                ];
                let from = dice.below(2048);
                for event in [Event::Above, Event::Rise, Event::Set] {
                    agree(&rt, &numbers, 0, event, from)?;
                    agree(&rt, &numbers, lift as i64, event, 0)?;
                }
            }
        }
        Ok(())
    }
}
