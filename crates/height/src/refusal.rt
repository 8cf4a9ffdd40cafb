// Why something is not taken: one list for all layers. A refusal has a number and a place.
ghost use Rattle.height.specs.Refusals.{refusal_number, refusal_place};
ghost use Rattle.height.specs.Texts.{reason_text, refusal_text};
ghost use Rattle.std.specs.Prelude.{◌≡◌, Some};

use std::fmt;

#[derive(Clone, Copy, PartialEq, Eq, Debug)]
pub enum Refusal {
    // A file with a number beyond 2^24, at that index; or one that is not 1 to 4,096 spans of four numbers, at the count of its numbers.
    File(u64),
    // A line beyond 2^24.
    Line,
    // A tick that is not in the file.
    Tick(i128),
    // Something else asked for than above, rising or setting, by its number.
    Asked(u64),
    // A text that cannot be read, by its line.
    Text(u64),
}

impl Refusal {
    // Users and C are told a refusal by its number and its place.
    pub fn number(self) -> u64
        ensures { result ≡ refusal_number self }
    {
        match self {
            Refusal::File(_) => 1,
            Refusal::Line => 2,
            Refusal::Tick(_) => 3,
            Refusal::Asked(_) => 4,
            Refusal::Text(_) => 5,
        }
    }

    pub fn place(self) -> i128
        ensures { result ≡ refusal_place self }
    {
        match self {
            Refusal::File(place) => place as i128,
            Refusal::Line => 0,
            Refusal::Tick(tick) => tick,
            Refusal::Asked(number) => number as i128,
            Refusal::Text(line) => line as i128,
        }
    }

    // Why it is refused.
    pub fn reason(self) -> &'static str
        ensures { result.now ≡ reason_text self }
    {
        match self {
            Refusal::File(_) => "the file is not 1 to 4096 spans of four numbers within 16777216",
            Refusal::Line => "the line is beyond 16777216",
            Refusal::Tick(_) => "the tick is not in the file",
            Refusal::Asked(_) => "something else is asked for than above, rise or set",
            Refusal::Text(_) => "the text cannot be read",
        }
    }
}

impl fmt::Display for Refusal {
    ghost output = { λ e. Some (refusal_text e) };

    fn fmt<W: fmt::Write>(&self, f: &mut fmt::Formatter<W>) -> fmt::Result {
        write!(
            f,
            "refused {} at {}: {}",
            self.number(),
            self.place(),
            self.reason()
        )
    }
}
