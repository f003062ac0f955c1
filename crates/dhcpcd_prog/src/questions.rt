//! Whether the words of the command line ask for the program's help, for its version, or for its work.

ghost use Rattle.std.specs.Prelude.{map};
ghost use Rattle.std.specs.String.{string_bytes};
ghost use Rattle.dhcpcd_prog.specs.Questions.{IsAsked};

use dhcpcd::is_alone;

/// What the words ask of the program itself, before its work.
#[derive(Clone, Copy)]
pub enum Question {
    /// `--help`: what the program does with its words.
    Help,
    /// `--version`.
    Version,
    /// Nothing: the top call answers.
    Work,
}

/// What the words after the program's name ask.
pub fn asked(words: &[String]) -> Question
    ensures { IsAsked result (map string_bytes words.now) }
{
    if is_alone(words, "--help") {
        return Question::Help;
    }
    if is_alone(words, "--version") {
        return Question::Version;
    }
    Question::Work
}
