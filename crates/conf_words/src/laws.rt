//! What is true of the definitions. These functions do nothing: their contracts are the laws.
ghost use Rattle.conf_words.specs.WordLaws.{ArgumentsAreOne, LinesAreOne, ReadingsAreOne, WholeArgumentsAreOne};

/// A text has one first line.
pub fn lines_are_one()
    ensures { LinesAreOne }
{}

/// What follows a directive is one list of arguments, and one argument at most where it is taken as a whole.
pub fn arguments_are_one()
    ensures list { ArgumentsAreOne }
    ensures whole { WholeArgumentsAreOne }
{}

/// A text is read in one way: its directives and its first line that isn't text are told by it alone.
pub fn readings_are_one()
    ensures { ReadingsAreOne }
{}
