//! A transcript's text tells its lines.
ghost use Rattle.net_types.specs.Reads.{Reads};
ghost use Rattle.script_model.specs.Lines.{line_words};
ghost use Rattle.transcript_text.specs.Fits.{FitsLine, LinesApart};
ghost use Rattle.transcript_text.specs.LineShapes.{line_at};

/// Unlike lines have unlike texts: what a line's text is determines the line. It holds of the lines that a transcript
/// can have: numbers of their types, names of interfaces, files and variables as they are allowed, rows that a host can
/// hold.
pub fn lines_apart()
    ensures { LinesApart }
{}

/// A line that a transcript can have is read back from its text, and of another text no line is read.
pub fn lines_are_read()
    ensures { Reads line_words FitsLine line_at }
{}
