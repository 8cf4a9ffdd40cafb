// A word as a whole number.
ghost use Rattle.std.specs.Prelude.{◌≡◌, ◌^◌, ◌<◌, IfSome, unsigned_abs};
ghost use Rattle.words.specs.Numbers.{figures_of, number_of};

// The most figures that a number may have.
const MOST: usize = 18;

// The number that 1 to 18 figures write. `parse` would take a plus, and as many figures as fit.
fn figures(word: &[u8]) -> Option<u64>
    ensures value { result ≡ figures_of word.now }
    ensures small { IfSome result (λ n. n < 10 ^ 18) }
{
    if word.is_empty() || word.len() > MOST {
        return None;
    }
    let mut n: u64 = 0;
    for byte in word {
        if !byte.is_ascii_digit() {
            return None;
        }
        n = 10 * n + (*byte - b'0') as u64;
    }
    Some(n)
}

// A number: an optional minus, and 1 to 18 figures.
pub fn number(word: &[u8]) -> Option<i64>
    ensures value { result ≡ number_of word.now }
    ensures small { IfSome result (λ z. unsigned_abs z < 10 ^ 18) }
{
    Some(match word.strip_prefix(b"-") {
        Some(after) => -(figures(after)? as i64),
        None => figures(word)? as i64,
    })
}
