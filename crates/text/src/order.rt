// What a line of text asks for.
ghost use Rattle.text.specs.Orders.{keyed, order_of};
ghost use Rattle.words.specs.Words.{words};
ghost use Rattle.std.specs.Prelude.{◌≡◌};

use crossing::event::Event;
use words::number::number;
use words::split::Words;

#[derive(Clone, Copy, PartialEq, Eq, Debug)]
pub enum Order {
    // The line for what follows.
    Line(i64),
    // The first tick of an event, from a tick on.
    First(Event, i64),
    // The height in a tick, in whole thousandths.
    Height(i64),
    // The numbers of the spans from one up to another.
    Spans(i64, i64),
    // All risings and settings of a span.
    Table(i64),
    // All risings and settings of the file.
    Tables,
}

// The order of a word and a number. An event's word is one of an order's words, so they are read in one match.
fn with_number(key: &[u8], n: i64) -> Option<Order>
    ensures { result ≡ keyed key.now n }
{
    match key {
        b"line" => Some(Order::Line(n)),
        b"above" => Some(Order::First(Event::Above, n)),
        b"rise" => Some(Order::First(Event::Rise, n)),
        b"set" => Some(Order::First(Event::Set, n)),
        b"height" => Some(Order::Height(n)),
        b"table" => Some(Order::Table(n)),
        _ => None,
    }
}

// The order of a line of text; none where it cannot be read.
pub fn read_order(line: &[u8]) -> Option<Order>
    ensures { result ≡ order_of (words line.now) }
{
    let mut words = Words::new(line);
    match (words.next(), words.next(), words.next(), words.next()) {
        (Some(b"table"), None, ..) => Some(Order::Tables),
        (Some(key), Some(n), None, ..) => with_number(key, number(n)?),
        (Some(b"spans"), Some(m), Some(n), None) => Some(Order::Spans(number(m)?, number(n)?)),
        _ => None,
    }
}
