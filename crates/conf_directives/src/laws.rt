//! What is true of the definitions. These functions do nothing: their contracts are the laws.
ghost use Rattle.conf_directives.specs.SayLaws.{BlocksAreOfOneInterface, CodesFit, HintsFit, IdentifiersFit, LinesSayOneThing, SharesFit};

/// What a line says is told by its bytes alone.
pub fn lines_say_one_thing()
    ensures said { LinesSayOneThing }
    ensures interface { BlocksAreOfOneInterface }
{}

/// The bytes that tell a client apart are 1 to 255, as many as option 61 can have.
pub fn identifiers_fit()
    ensures { IdentifiersFit }
{}

/// The codes that a line takes are those of options, and of those that it refuses none is one without which no lease is
/// one.
pub fn codes_fit()
    ensures { CodesFit }
{}

/// A prefix that is asked for has 8 to 127 bits, where it has a length, and a subnet of it 1 to 127.
pub fn lengths_fit()
    ensures shares { SharesFit }
    ensures hints { HintsFit }
{}
