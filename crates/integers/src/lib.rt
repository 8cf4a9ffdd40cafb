// Whole numbers: a product that always fits, and in proofs/ the laws of ℤ and ℕ that every layer above cites.
#![tactic(auto)]

ghost use Rattle.std.specs.Prelude.{◌≡◌, pos, ◌*ℤ◌};

// A signed number times an unsigned one, in twice the width, where every such product fits.
pub fn times(x: i32, k: u32) -> i64
    ensures { result ≡ x *ℤ pos k }
{
    x as i64 * k as i64
}
