// A whole run, from text to text.
ghost use Rattle.session.specs.Sessions.{run as run_of};
ghost use Rattle.std.specs.Prelude.{◌≡◌, IfOk, string_bytes};

use super::session::Session;
use std::alloc::{AllocError, Global};

// What is written for a text, and whether anything was refused.
#[derive(Drop)]
pub struct Outcome {
    pub text: String,
    pub refused: bool,
}

// The run over a text: what it writes is what its lines write, one after the other.
pub fn run(heap: Global, text: &[u8]) -> Result<Outcome, AllocError>
    ensures { IfOk result (λ o. (string_bytes o.text ≡ (run_of text.now).text) × (o.refused ≡ (run_of text.now).state.refused)) }
{
    let mut session = Session::new(heap);
    let mut out = String::new(heap);
    for line in text.split_inclusive(|b| *b == b'\n') {
        session.feed(heap, line, &mut out)?;
    }
    Ok(Outcome {
        text: out,
        refused: session.refused(),
    })
}
