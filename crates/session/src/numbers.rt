// The numbers of a line.
ghost use Rattle.session.specs.Pushing.{Pushes};
ghost use Rattle.session.specs.declared.numbers.Unread.TheVariants.{Memory, Word};
ghost use Rattle.session.specs.Sessions.{kept as kept_of};
ghost use Rattle.std.specs.Prelude.{◌≡◌};
ghost use Rattle.words.specs.Words.{words};

use std::alloc::{AllocError, AllocFailed};
use words::number::number;
use words::split::Words;

// A number as the file keeps it: one that is too large is the largest or the least of its type, which is beyond the bound too. The library's `clamp`, since no `From` cuts a number off.
fn kept(z: i64) -> i32
    ensures { result ≡ kept_of z }
{
    z.clamp(i32::MIN as i64, i32::MAX as i64) as i32
}

// Why the numbers of a line are not taken: a word is no number, or there is no memory for them.
#[derive(Clone, Copy, PartialEq, Eq, Debug)]
pub enum Unread {
    Word,
    Memory(AllocError),
}

impl<T: Drop> From<AllocFailed<T>> for Unread {
    ghost from_gives = { λ _ r. elim r [ Word ↦ ⊥ | Memory e ↦ Unit {0} ] };

    fn from(failed: AllocFailed<T>) -> Unread {
        Unread::Memory(failed.into())
    }
}

// All numbers of a line behind those that are there; none of them where a word is no number.
pub fn push_numbers(numbers: &mut Vec<i32>, line: &[u8]) -> Result<(), Unread>
    ensures { Pushes numbers.old.items (words line.now) numbers.new.items result }
{
    let had = numbers.len();
    for word in Words::new(line) {
        let Some(z) = number(word) else {
            numbers.truncate(had);
            return Err(Unread::Word);
        };
        numbers.push(kept(z))?;
    }
    Ok(())
}
