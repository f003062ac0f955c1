//! A text tells its line.
ghost use Rattle.transcript_lines.specs.LineSpellings.{LinesAreRead};

use transcript_text::lines_are_read;

/// Law: what is read is spelled so, and what is spelled so is read, so that a text spells one line at most.
pub fn a_text_spells_one_line()
    ensures { LinesAreRead }
{
    lines_are_read();
}
