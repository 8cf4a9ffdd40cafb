// What a line of text leads to.
ghost use Rattle.std.specs.Prelude.{◌≡◌, Ok, Err, string_bytes, Decides, ◌≢◌, vec_items};
ghost use Rattle.almanac.specs.Doors.{numbers_of};
ghost use Rattle.height.specs.Files.{Good, first_beyond};
ghost use Rattle.height.specs.declared.refusal.Refusal.TheVariants.{File};
ghost use Rattle.session.specs.Held.{Answers, Makes, Refuses, phase_of, state_of};
ghost use Rattle.session.specs.Sessions.{asking, begun, ended, ends, numbers_step, passed, start, step, with_order};
ghost use Rattle.text.specs.Orders.{order_of};
ghost use Rattle.words.specs.Words.{words};

use super::kind::Kind;
use super::line::{bare, kind};
use super::numbers::{Unread, push_numbers};
use super::reply::Desk;
use super::session::Session;
use super::stage::Stage;
use almanac::almanac::Almanac;
use almanac::ask::Fault;
use height::line::Line;
use height::refusal::Refusal;
use height::view::check;
use std::alloc::{AllocError, Global};
use text::answer::put_refusal;
use text::order::{Order, read_order};

impl Session {
    // Nothing is read yet: no numbers, the line 0.
    pub fn new(heap: Global) -> Session
        ensures { state_of result ≡ start }
    {
        Session {
            numbers: Vec::new(heap),
            line: Line::default(),
            stage: Stage::Reading,
            at: 0,
            refused: false,
        }
    }

    // A line that says nothing.
    fn pass(&mut self)
        ensures { state_of self.new ≡ passed (state_of self.old) }
    {
        self.at = self.at.saturating_add(1);
    }

    // A refusal is written, and kept in mind.
    fn refuse(&mut self, refusal: Refusal, out: &mut String) -> Result<(), AllocError>
        ensures { Refuses (state_of self.old) refusal (state_of self.new) (string_bytes out.old) (string_bytes out.new) result }
    {
        put_refusal(out, refusal)?;
        self.refused = true;
        Ok(())
    }

    // A line that ends the text: it is refused, and nothing more is read.
    fn end(&mut self, out: &mut String) -> Result<(), AllocError>
        ensures { Makes (ends (state_of self.old)) (state_of self.new) (string_bytes out.old) (string_bytes out.new) result }
    {
        let refusal = Refusal::Text(self.at);
        self.stage = Stage::Ended;
        self.pass();
        self.refuse(refusal, out)
    }
}

impl Session {
    // A line of numbers. Behind the first question, or with a word that is no number, it ends the text.
    fn take_numbers(&mut self, line: &[u8], out: &mut String) -> Result<(), AllocError>
        ensures { Makes (numbers_step (state_of self.old) (words line.now)) (state_of self.new) (string_bytes out.old) (string_bytes out.new) result }
    {
        if self.stage != Stage::Reading {
            return self.end(out);
        }
        match push_numbers(&mut self.numbers, line) {
            Ok(()) => {
                self.pass();
                Ok(())
            }
            Err(Unread::Word) => self.end(out),
            Err(Unread::Memory(want)) => Err(want),
        }
    }
}

impl Session {
    // The first question ends the numbers. The file is checked here, once.
    fn begin(&mut self)
        ensures { state_of self.new ≡ begun (state_of self.old) }
    {
        if self.stage == Stage::Reading {
            self.stage = Stage::Asking(check(self.numbers.as_slice()));
        }
    }

    // The almanac over the file, or why the file is refused.
    fn almanac(&self) -> Result<Almanac<'_>, Refusal>
        requires { phase_of self.now.stage ≡ asking }
        ensures { elim result [ Ok a ↦ Good (vec_items self.now.numbers) × (numbers_of a ≡ vec_items self.now.numbers) | Err e ↦ (Good (vec_items self.now.numbers) → ⊥) × (e ≡ File (first_beyond (vec_items self.now.numbers))) ] }
    {
        match self.stage {
            Stage::Asking(checked) => {
                checked?;
                Ok(Almanac::new(self.numbers.as_slice()))
            }
            _ => unreachable!(),
        }
    }

    // What a question asks for is answered, or refused with nothing changed. A line that is taken is in force from now on.
    fn answer(&mut self, heap: Global, line: &[u8], out: &mut String) -> Result<(), Fault>
        requires { phase_of self.old.stage ≡ asking }
        ensures { Answers (state_of self.old) (order_of (words line.now)) (state_of self.new) (string_bytes out.old) (string_bytes out.new) result }
    {
        let order = read_order(line).ok_or(Refusal::Text(self.at))?;
        if let Order::Line(line) = order {
            self.line = Line::try_from(line)?;
            return Ok(());
        }
        let desk = Desk {
            heap,
            almanac: self.almanac()?,
            line: self.line,
        };
        desk.answer(order, out)
    }

    // A question. The first one ends the numbers.
    fn ask(&mut self, heap: Global, line: &[u8], out: &mut String) -> Result<(), AllocError>
        requires { phase_of self.old.stage ≢ ended }
        ensures { Makes (with_order (state_of self.old) (order_of (words line.now))) (state_of self.new) (string_bytes out.old) (string_bytes out.new) result }
    {
        self.begin();
        match self.answer(heap, line, out) {
            Ok(()) => {}
            Err(Fault::Refused(refusal)) => self.refuse(refusal, out)?,
            Err(Fault::Memory(want)) => return Err(want),
        }
        self.pass();
        Ok(())
    }
}

impl Session {
    // One line of the text, with its end: what is written for it is put at the end of `out`.
    pub fn feed(&mut self, heap: Global, raw: &[u8], out: &mut String) -> Result<(), AllocError>
        ensures { Makes (step (state_of self.old) raw.now) (state_of self.new) (string_bytes out.old) (string_bytes out.new) result }
    {
        if self.stage == Stage::Ended {
            return Ok(());
        }
        let line = bare(raw);
        match kind(line) {
            Kind::Nothing => {
                self.pass();
                Ok(())
            }
            Kind::Numbers => self.take_numbers(line, out),
            Kind::Question => self.ask(heap, line, out),
        }
    }

    // Whether the text has ended: nothing more is read of it.
    pub fn has_ended(&self) -> bool
        ensures { Decides result ((state_of self.now).phase ≡ ended) }
    {
        self.stage == Stage::Ended
    }

    // Whether anything was refused so far.
    pub fn refused(&self) -> bool
        ensures { result ≡ (state_of self.now).refused }
    {
        self.refused
    }
}
