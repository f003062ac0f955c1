//! The rules on the shares of a line.
ghost use Rattle.std.specs.Prelude.{◌≡◌, ◌↔◌, IsOk, IsTrue, IfErr};
ghost use Rattle.prefix_share.specs.Rules.{IsFirstFault, broken_by, is_plan, mixes_lengths, repeats_sla};

use crate::share::Share;
use crate::subnets::has_room;
use thiserror::Error;

/// Why a share can't stand in its line.
#[derive(Clone, Copy, Debug, PartialEq, Eq, Error)]
pub enum ShareCause {
    /// An earlier share has the same SLA id.
    #[error("SameSla")]
    SameSla,
    /// The prefix that is asked for has no subnet of this length and SLA id.
    #[error("TooLarge")]
    TooLarge,
    /// An earlier share has another length.
    #[error("MixedLength")]
    MixedLength,
}

/// The first share that breaks a rule.
#[derive(Clone, Copy, Debug, PartialEq, Eq, Error)]
#[error("share {share}: {cause}")]
pub struct ShareFault {
    /// Its place in the line, from 1.
    pub share: usize,
    pub cause: ShareCause,
}

/// Judges the shares of a line. They are to be of one length, each is to fit the prefix that is asked for,
/// and no two may have the same SLA id. The fault names the first share that breaks a rule with those before
/// it, and of its causes the first in the order `MixedLength`, `TooLarge`, `SameSla`.
pub fn plan(shares: &[Share]) -> Result<(), ShareFault>
    ensures taken { IsOk result ↔ IsTrue (is_plan shares.now) }
    ensures refused { IfErr result (λ fault. IsFirstFault shares.now fault) }
{
    for (index, share) in shares.iter().enumerate() {
        if let Some(cause) = broken_by(&shares[..index], share) {
            return Err(ShareFault {
                share: index + 1,
                cause,
            });
        }
    }
    Ok(())
}

/// The first rule that a share breaks with those before it.
fn broken_by(earlier: &[Share], share: &Share) -> Option<ShareCause>
    ensures { result ≡ broken_by earlier.now share.now }
{
    if mixes_lengths(earlier, share) {
        Some(ShareCause::MixedLength)
    } else if !has_room(share.hint, share) {
        Some(ShareCause::TooLarge)
    } else if repeats_sla(earlier, share) {
        Some(ShareCause::SameSla)
    } else {
        None
    }
}

/// Whether an earlier share has another length.
fn mixes_lengths(earlier: &[Share], share: &Share) -> bool
    ensures { result ≡ mixes_lengths earlier.now share.now }
{
    earlier.iter().any(|other| other.len != share.len)
}

/// Whether an earlier share has the same SLA id.
fn repeats_sla(earlier: &[Share], share: &Share) -> bool
    ensures { result ≡ repeats_sla earlier.now share.now }
{
    earlier.iter().any(|other| other.sla == share.sla)
}
