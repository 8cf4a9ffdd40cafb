// What a line of text is, by its first mark.
#[derive(Clone, Copy, PartialEq, Eq, Debug)]
pub enum Kind {
    // A blank line, or a comment.
    Nothing,
    // A line of numbers.
    Numbers,
    Question,
}
