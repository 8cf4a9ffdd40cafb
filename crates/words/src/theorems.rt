// The promise of this layer, as the contract of a function that does nothing else.
ghost use Rattle.words.specs.Promise.{ReadBack};

// A number that is written as usual is read as it was.
pub fn numbers_are_read_back()
    ensures { ReadBack }
{}
