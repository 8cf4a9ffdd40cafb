// The checked view of a lent file: it borrows the numbers, and its ghost field carries that they are a good file.
ghost use Rattle.height.specs.Files.{Good};

#[derive(Clone, Copy)]
pub struct View<'a> {
    pub(super) numbers: &'a [i32],
    ghost good: { Good numbers.now },
}
