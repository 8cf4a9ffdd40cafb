// A height in whole thousandths.
ghost use Rattle.height.specs.Almanacs.{rounded as rounded_of};
ghost use Rattle.std.specs.Prelude.{◌≡◌};

// A height that is kept times 2^30, to the nearest thousandth, and up where two are as near: by half thousandths first, so that no sum overflows.
pub fn rounded(height: i64) -> i64
    ensures { result ≡ rounded_of 1024 height }
{
    let halves = height >> 29;
    (halves + 1) >> 1
}
