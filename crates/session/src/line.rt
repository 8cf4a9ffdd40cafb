// A line of text, with the break that ends it.
ghost use Rattle.std.specs.Prelude.{◌≡◌};
ghost use Rattle.session.specs.Lines.{bare as bare_of};
ghost use Rattle.session.specs.Sessions.{kind_of, kind_of_mark};
ghost use Rattle.words.specs.Words.{words};

use super::kind::Kind;
use words::split::Words;

// A line without its line break, and without a carriage return before that.
pub fn bare(raw: &[u8]) -> &[u8]
    ensures { result.now ≡ bare_of raw.now }
{
    match raw.strip_suffix(b"\n") {
        Some(line) => line.strip_suffix(b"\r").unwrap_or(line),
        None => raw,
    }
}

// What a mark begins.
fn kind_of_mark(mark: u8) -> Kind
    ensures { result ≡ kind_of_mark mark }
{
    if mark == b'#' {
        Kind::Nothing
    } else if mark.is_ascii_digit() || mark == b'-' {
        Kind::Numbers
    } else {
        Kind::Question
    }
}

// What a line is, by the first mark of its first word.
pub fn kind(line: &[u8]) -> Kind
    ensures { result ≡ kind_of (words line.now) }
{
    match Words::new(line).next() {
        Some(word) => kind_of_mark(word[0]),
        None => Kind::Nothing,
    }
}
