// Orders, written.
ghost use Rattle.std.specs.Prelude.{Some, string_bytes};
ghost use Rattle.text.specs.Answers.{Appends};
ghost use Rattle.text.specs.Orders.{order_bytes};

use super::order::Order;
use std::alloc::AllocError;
use std::fmt;
use std::fmt::Write;

// As it is read again by `read_order`.
impl fmt::Display for Order {
    ghost output = { λ o. Some (order_bytes o) };

    fn fmt<W: fmt::Write>(&self, f: &mut fmt::Formatter<W>) -> fmt::Result {
        match self {
            Order::Line(line) => write!(f, "line {line}"),
            Order::First(event, tick) => write!(f, "{event} {tick}"),
            Order::Height(tick) => write!(f, "height {tick}"),
            Order::Spans(first, end) => write!(f, "spans {first} {end}"),
            Order::Table(span) => write!(f, "table {span}"),
            Order::Tables => write!(f, "table"),
        }
    }
}

// An order, at the end of a text, as answers are put there.
pub fn put_order(out: &mut String, order: Order) -> Result<(), AllocError>
    ensures { Appends (string_bytes out.old) (order_bytes order) (string_bytes out.new) result }
{
    write!(out, "{order}")
}
