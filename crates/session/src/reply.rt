// The answer to an order, over a good file.
ghost use Rattle.std.specs.Prelude.{◌≡◌, ◌-◌, ◌<◌, min, Some, None, Ok, Err, string_bytes};
ghost use Rattle.almanac.specs.Doors.{numbers_of};
ghost use Rattle.crossing.specs.Above.{above};
ghost use Rattle.crossing.specs.Events.{crossings};
ghost use Rattle.height.specs.Almanacs.{ticks};
ghost use Rattle.height.specs.Files.{almanac_in};
ghost use Rattle.height.specs.declared.refusal.Refusal.TheVariants.{Tick};
ghost use Rattle.session.specs.Replies.{Replies, answer as answer_of, part_in, says, tick_in};
ghost use Rattle.text.specs.Answers.{table_bytes};
ghost use Rattle.text.specs.declared.order.Order.TheVariants.{First, Height, Spans, Table};

use almanac::almanac::Almanac;
use almanac::ask::Fault;
use crossing::event::Event;
use height::line::Line;
use height::refusal::Refusal;
use height::span::Span;
use std::alloc::Global;
use text::answer::{put_height, put_part, put_table, put_tick};
use text::order::Order;

// What answers orders: a good file, the line in force, and where lists are made.
#[derive(Clone, Copy)]
pub struct Desk<'a> {
    pub heap: Global,
    pub almanac: Almanac<'a>,
    pub line: Line,
}

impl<'a> Desk<'a> {
    // A whole number as a tick of the file.
    fn tick(&self, z: i128) -> Result<u64, Refusal>
        ensures { elim result [ Ok t ↦ Some t ≡ tick_in (almanac_in 1024 (numbers_of self.now.almanac)) z | Err e ↦ (None ≡ tick_in (almanac_in 1024 (numbers_of self.now.almanac)) z) × (e ≡ Tick z) ] }
    {
        let tick = u64::try_from(z).map_err(|_| Refusal::Tick(z))?;
        Ok(self.almanac.at(tick)?.tick)
    }

    // The height in a tick.
    fn height(&self, z: i64, out: &mut String) -> Result<(), Fault>
        ensures { Replies (string_bytes out.old) (answer_of (numbers_of self.now.almanac) self.now.line.thousandths (Height z)) (string_bytes out.new) result }
    {
        let tick = self.tick(z as i128)?;
        put_height(out, self.almanac.height(tick)?)?;
        Ok(())
    }

    // The first tick of an event.
    fn first(&self, event: Event, z: i64, out: &mut String) -> Result<(), Fault>
        ensures { Replies (string_bytes out.old) (answer_of (numbers_of self.now.almanac) self.now.line.thousandths (First event z)) (string_bytes out.new) result }
    {
        let tick = self.tick(z as i128)?;
        let first = self.almanac.first_over(self.line, event, tick)?;
        put_tick(out, first.tick)?;
        Ok(())
    }

    // The spans from one up to another; none of them where that is no part of the file.
    fn part(&self, first: i64, end: i64) -> &'a [i32]
        ensures { result.now ≡ part_in (numbers_of self.now.almanac) first «end» }
    {
        match (u64::try_from(first), u64::try_from(end)) {
            (Ok(first), Ok(end)) => self.almanac.part(first, end),
            // A rule of the project: `none` is written for no part and for an empty one.
            _ => &[],
        }
    }

    // All risings and settings in the ticks from one up to another.
    fn table(&self, from: u64, end: u64, out: &mut String) -> Result<(), Fault>
        requires { «from» < ticks (almanac_in 1024 (numbers_of self.now.almanac)) }
        ensures { Replies (string_bytes out.old) (says (table_bytes (crossings (above (almanac_in 1024 (numbers_of self.now.almanac)) self.now.line.thousandths) «from» (min «end» (ticks (almanac_in 1024 (numbers_of self.now.almanac))) - «from»)))) (string_bytes out.new) result }
    {
        let listing = self
            .almanac
            .crossings_over(self.heap, self.line, from, end)?;
        put_table(out, listing.crossings.as_slice())?;
        Ok(())
    }

    // All risings and settings of a span.
    fn span_table(&self, span: i64, out: &mut String) -> Result<(), Fault>
        ensures { Replies (string_bytes out.old) (answer_of (numbers_of self.now.almanac) self.now.line.thousandths (Table span)) (string_bytes out.new) result }
    {
        let tick = self.tick(1024 * span as i128)?;
        self.table(tick, tick + Span::TICKS, out)
    }

    // The answer to an order. A refused one writes nothing.
    pub fn answer(&self, order: Order, out: &mut String) -> Result<(), Fault>
        ensures { Replies (string_bytes out.old) (answer_of (numbers_of self.now.almanac) self.now.line.thousandths order) (string_bytes out.new) result }
    {
        match order {
            Order::Line(_) => Ok(()),
            Order::First(event, tick) => self.first(event, tick, out),
            Order::Height(tick) => self.height(tick, out),
            Order::Spans(first, end) => Ok(put_part(out, self.part(first, end))?),
            Order::Table(span) => self.span_table(span, out),
            Order::Tables => self.table(0, self.almanac.ticks(), out),
        }
    }
}
