// All heights of a file.
ghost use Rattle.height.specs.Almanacs.{height_at, ticks as ticks_of};
ghost use Rattle.height.specs.Views.{almanac_of};
ghost use Rattle.reading.specs.Cursors.{in_turn};
ghost use Rattle.std.specs.Prelude.{◌≡◌, IfOk};

use super::stretch::Stretch;
use height::file::View;
use height::source::Source;
use std::alloc::{AllocError, Global};

// The height in each tick of a file, times 2^30, in order: none left out, and none twice. There is room for all of them from the start, and each span has a loop of its own.
pub fn all_heights(heap: Global, view: View) -> Result<Vec<i64>, AllocError>
    ensures { IfOk result (λ v. v.items ≡ in_turn (height_at (almanac_of view.entry)) (ticks_of (almanac_of view.entry))) }
{
    let mut heights = Vec::with_capacity(heap, view.ticks() as usize)?;
    for span in 0..view.spans() {
        for moment in Stretch::new(view, span) {
            heights.push(moment.height)?;
        }
    }
    Ok(heights)
}
