// How far a session has come.
use height::refusal::Refusal;

#[derive(Clone, Copy, PartialEq, Eq, Debug)]
pub enum Stage {
    // Numbers may still come.
    Reading,
    // Questions have begun, over a file that was checked: a good one, or one that is refused.
    Asking(Result<(), Refusal>),
    // Nothing more is read.
    Ended,
}
