// What a session holds: the numbers so far, the line in force, how far it has come, the number of the next line, and whether anything was refused.
ghost use Rattle.std.specs.Prelude.{◌≡◌, Ok, Err};
ghost use Rattle.height.specs.Files.{Good, first_beyond};
ghost use Rattle.height.specs.declared.refusal.Refusal.{Refusal};
ghost use Rattle.height.specs.declared.refusal.Refusal.TheVariants.{File};
ghost use Rattle.session.specs.declared.stage.Stage.TheVariants.{Asking};

use super::stage::Stage;
use height::line::Line;

#[derive(Drop)]
pub struct Session {
    pub(super) numbers: Vec<i32>,
    pub(super) line: Line,
    pub(super) stage: Stage,
    pub(super) at: u64,
    pub(super) refused: bool,
    ghost good: { stage ≡ Asking (Ok tt) → Good numbers.items },
    ghost bad: { (e : Refusal) → stage ≡ Asking (Err e) → (Good numbers.items → ⊥) × (e ≡ File (first_beyond numbers.items)) },
}
