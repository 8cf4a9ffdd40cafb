// The check of a file, and what its view answers.
ghost use Rattle.std.specs.Prelude.{◌≡◌, ◌+◌, ◌*◌, ◌/◌, ◌%◌, ◌^◌, ◌<◌, ◌≤◌, Ok, Err, Decides, nat_lt, unsigned_abs};
ghost use Rattle.height.specs.Files.{Good, first_beyond};
ghost use Rattle.height.specs.Views.{Checks};
ghost use Rattle.height.specs.declared.refusal.Refusal.TheVariants.{File};

use super::file::View;
use super::refusal::Refusal;
use super::span::Span;

// Whether a number is beyond the bound of a file's numbers.
fn beyond(x: i32) -> bool
    ensures { result ≡ nat_lt (2 ^ 24) (unsigned_abs x) }
{
    x.unsigned_abs() > Span::BOUND as u32
}

// The place of the first number beyond the bound; how many numbers there are, if there is none.
fn first_far(numbers: &[i32]) -> usize
    ensures { result ≡ first_beyond numbers.now }
{
    let first = numbers.iter().position(|x| beyond(*x));
    first.unwrap_or(numbers.len())
}

// Whether so many numbers are 1 to 4,096 spans.
fn makes_spans(count: usize) -> bool
    ensures { Decides result ((count % 4 ≡ 0) × (4 ≤ count) × (count ≤ 16384)) }
{
    count % Span::NUMBERS == 0
        && count >= Span::NUMBERS
        && (count / Span::NUMBERS) as u64 <= Span::MOST
}

// Takes just the good files. A number beyond the bound is refused before a wrong count.
pub fn check(numbers: &[i32]) -> Result<(), Refusal>
    ensures { elim result [ Ok _ ↦ Good numbers.now | Err e ↦ (Good numbers.now → ⊥) × (e ≡ File (first_beyond numbers.now)) ] }
{
    let place = first_far(numbers);
    if place == numbers.len() && makes_spans(place) {
        Ok(())
    } else {
        Err(Refusal::File(place as u64))
    }
}

impl<'a> View<'a> {
    // The view of a file that was checked.
    pub fn new(numbers: &'a [i32]) -> View<'a>
        requires { Good numbers.now }
        ensures { result.numbers.now ≡ numbers.now }
    {
        View { numbers }
    }

    // All numbers of the file.
    pub fn numbers(&self) -> &'a [i32]
        ensures { result.now ≡ self.now.numbers.now }
    {
        self.numbers
    }
}

// The view of a file, or where the file is refused.
impl<'a> TryFrom<&'a [i32]> for View<'a> {
    type Error = Refusal;

    ghost try_from_gives = { λ numbers r. Checks numbers.now r };

    fn try_from(numbers: &'a [i32]) -> Result<View<'a>, Refusal> {
        check(numbers)?;
        Ok(View::new(numbers))
    }
}
