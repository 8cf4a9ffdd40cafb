// A cursor over the ticks of a lent file. It borrows the file, knows its span, and carries the height with its differences.
ghost use Rattle.std.specs.Prelude.{◌≡◌, ◌/◌, ◌<◌, ◌≤◌, length};
ghost use Rattle.height.specs.Files.{span_at};
ghost use Rattle.reading.specs.Differences.{differences_of};

use super::differences::Differences;
use height::file::View;

// It stands before tick `at` of a span, or behind the last one, and the differences are the span's there.
#[derive(Clone, Copy)]
pub struct Cursor<'a> {
    pub(super) view: View<'a>,
    pub(super) span: u64,
    pub(super) at: u64,
    pub(super) differences: Differences,
    ghost inside: { span < length view.numbers.now / 4 },
    ghost short: { at ≤ 1024 },
    ghost stands: { differences ≡ differences_of 1024 (span_at view.numbers.now span) at },
}
