// What a line of output says.
ghost use Rattle.replies.specs.Said.{one_word, place_of, refusal_of, said_of, two_words};
ghost use Rattle.words.specs.Words.{words};
ghost use Rattle.std.specs.Prelude.{◌≡◌};

use words::number::number;
use words::split::Words;

// What one line says; a refusal is one of the things that it can say. The numbers of `near` and `seen` are fractions, and are not read here.
#[derive(Clone, Copy, PartialEq, Eq, Debug)]
pub enum Said {
    // That there is none.
    Nothing,
    // A tick or a height.
    Number(i64),
    // A rising, by its tick.
    Rise(i64),
    // A setting, by its tick.
    Set(i64),
    // The four numbers of a span.
    Span(i64, i64, i64, i64),
    // That the body is not above the line.
    Hidden,
    // A refusal, by its number and its place.
    Refused(i64, i64),
}

// A word alone.
fn alone(word: &[u8]) -> Option<Said>
    ensures { result ≡ one_word word.now }
{
    match word {
        b"none" => Some(Said::Nothing),
        b"hidden" => Some(Said::Hidden),
        _ => Some(Said::Number(number(word)?)),
    }
}

// A rising or a setting.
fn crossing(key: &[u8], tick: &[u8]) -> Option<Said>
    ensures { result ≡ two_words key.now tick.now }
{
    let tick = number(tick)?;
    match key {
        b"rise" => Some(Said::Rise(tick)),
        b"set" => Some(Said::Set(tick)),
        _ => None,
    }
}

// A refusal's place: a number and a colon.
fn place(word: &[u8]) -> Option<i64>
    ensures { result ≡ place_of word.now }
{
    number(word.strip_suffix(b":")?)
}

// A refusal, by the four words in front of its reason.
fn refusal(key: &[u8], code: &[u8], at: &[u8], spot: &[u8]) -> Option<Said>
    ensures { result ≡ refusal_of key.now code.now at.now spot.now }
{
    match (key, at) {
        (b"refused", b"at") => Some(Said::Refused(number(code)?, place(spot)?)),
        _ => None,
    }
}

// What a line of output, without its line break, says; none where it is no answer.
pub fn read_answer(line: &[u8]) -> Option<Said>
    ensures { result ≡ said_of (words line.now) }
{
    let mut words = Words::new(line);
    match (
        words.next(),
        words.next(),
        words.next(),
        words.next(),
        words.next(),
    ) {
        (Some(word), None, ..) => alone(word),
        (Some(key), Some(tick), None, ..) => crossing(key, tick),
        (Some(a), Some(b), Some(c), Some(d), None) => {
            Some(Said::Span(number(a)?, number(b)?, number(c)?, number(d)?))
        }
        (Some(key), Some(code), Some(at), Some(spot), Some(_)) => refusal(key, code, at, spot),
        _ => None,
    }
}
