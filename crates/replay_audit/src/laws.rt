//! The laws that a script's transcript has the lines of what the script tells, and that each address it shows, save
//! where a call of the host failed, has its basis: an audit says yes to what `replay` writes.

ghost use Rattle.life_audit.specs.Laws.{HeardBasisIn, HeldBasis};
ghost use Rattle.replay_audit.specs.Laws.{LinesAreTold, LivesAreJustified, ReplaysAreJustified, TranscriptsAreJustified};

/// Law: the lines of the transcript of a script are those of what it tells, life by life. After the opening of each
/// life and after each of its turns, unless a call of the host failed in it, each address that these lines show on a
/// managed interface has its basis in what the lines of that life show. So it is whatever came, whatever failed and
/// wherever a crash cut a life off; and so, too, where a lease of DHCPv6 may be one that any of an exchange's Replies
/// gave (RFC 8415, section 18.2.10).
pub fn lives_of_scripts_are_justified()
    ensures told { LinesAreTold }
    ensures held { LivesAreJustified HeldBasis }
    ensures heard { LivesAreJustified HeardBasisIn }
{}

/// Law: the text of the transcript of a script, of fewer than 2^64 bytes and of lines within the types that hold them,
/// is a transcript to which yes is to be said: each address that it shows has its basis. All that `replay` writes where
/// it answers that it is done is within these types, so that yes is to be said to it, too, where it is as short.
pub fn what_replay_writes_is_justified()
    ensures held { TranscriptsAreJustified HeldBasis }
    ensures heard { TranscriptsAreJustified HeardBasisIn }
    ensures writes_held { ReplaysAreJustified HeldBasis }
    ensures writes { ReplaysAreJustified HeardBasisIn }
{}
