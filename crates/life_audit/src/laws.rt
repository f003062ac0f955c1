//! The law that, over devices that tell what they hold and which of their calls fail, each address shown of a managed
//! interface has its basis in the lines of its life, unless a call of the host failed in that turn.

ghost use Rattle.life_audit.specs.Laws.{HeardBasisIn, HeldBasis, LinesRestOnEvidence, meets_all, meets_told};

/// Law: over devices that tell what they hold and which of their calls fail, what the lines of a life show of the
/// host's rows is justified: after the opening and after each turn, unless a call of the host failed in it, each
/// address that is shown of a managed interface has its basis in what the lines show. So it is whatever comes, and with
/// the turns of which the devices foretell that the life handles them; and so, too, where a lease of DHCPv6 may be one
/// that any of an exchange's Replies gave (RFC 8415, section 18.2.10).
pub fn lines_of_lives_rest_on_evidence()
    ensures all { LinesRestOnEvidence HeldBasis meets_all }
    ensures told { LinesRestOnEvidence HeldBasis meets_told }
    ensures heard { LinesRestOnEvidence HeardBasisIn meets_told }
{}
