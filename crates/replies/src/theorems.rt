// What is promised of answers as text, each the contract of a function that does nothing else. It speaks of the definitions that the contract of `read_answer` and those of the crate `text` cite.
ghost use Rattle.replies.specs.Promise.{AnswersBack, AnswersTold, LinesSaid, ReadingsBack};

// An answer whose numbers have at most 18 figures, as it is written, is read as it was, and so is a refusal with its reason.
pub fn written_answers_are_read()
    ensures { AnswersBack }
{}

// What the crate `text` writes is such lines, each with a line break.
pub fn lines_are_answers()
    ensures { LinesSaid }
{}

// Whatever is read as an answer is its words and its numbers, no less and no more; the reason of a refusal may be any words.
pub fn read_answers_are_said()
    ensures { AnswersTold }
{}

// The words of `near` and `seen` lines are numbers, and say exactly what was rounded and how far off that is.
pub fn readings_are_exact()
    ensures { ReadingsBack }
{}
