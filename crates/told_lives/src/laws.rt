//! The law that a life of fewer than 2^64 lines, its devices and what it asks of them being within bounds, is told in
//! lines that may stand in a transcript, and leaves its devices within their bounds.

ghost use Rattle.told_lives.specs.Laws.{LivesAreWellTold};

/// Law: over devices that tell what they hold and which of their calls fail, what they hold and what comes being within
/// its bounds, a life whose lines number fewer than 2^64 is told in lines of a transcript: a listing is followed by
/// exactly its rows, in row order, moments never fall, and each line is one that may stand there. So it is where the
/// bytes, moments and rows that the life asks are within the types that hold them, as those of every line in memory
/// are. What the life leaves is within the same bounds, so that the next life is told so too.
pub fn lives_are_well_told()
    ensures { LivesAreWellTold }
{}
