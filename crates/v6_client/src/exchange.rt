//! An exchange of messages, and when its message is said again (RFC 8415, section 15).

ghost use Rattle.std.specs.Prelude.{◌≡◌, ◌<◌, ◌≤◌, ◌^◌};
ghost use Rattle.v6_client.specs.Exchanges as exchanges;
ghost use Rattle.v6_client.specs.Times.{FitsTurn};

use crate::turn::Turn6;
use crate::xid::draw_xid;
use v6_retrans::parameters::SOLICIT;
use v6_retrans::{Parameters, Retrans, draw_rand};

/// The longest time until a message is said again, in milliseconds, which none comes near.
pub const LONGEST_TIME: u64 = 0xffff_ffff;

/// A message that was said and awaits its answer.
#[derive(Clone, Copy, PartialEq, Eq)]
pub struct Exchange6 {
    /// Its transaction id, below 2^24.
    pub xid: u32,
    /// The moment of its first message.
    pub began: u64,
    /// The time until the message is said again, in milliseconds.
    pub rt: u32,
    /// How often it was said.
    pub sent: u32,
    /// When it is said again.
    pub due: u64,
}

pub(crate) fn new_xid(turn: Turn6) -> u32
    ensures { result ≡ exchanges.new_xid turn }
{
    draw_xid(turn.salt, turn.site.iface.index, turn.last)
}

fn capped(time: u64) -> u32
    ensures { result ≡ exchanges.capped time }
{
    time.min(LONGEST_TIME) as u32
}

/// The message of an exchange that began at `began` is said now.
fn said(turn: Turn6, xid: u32, began: u64, retrans: Retrans) -> Exchange6
    requires { FitsTurn turn }
    ensures { result ≡ exchanges.said turn xid began retrans }
{
    let rt = capped(retrans.rt);
    Exchange6 {
        xid,
        began,
        rt,
        sent: retrans.sent,
        due: turn.at + u64::from(rt),
    }
}

/// A new exchange, whose message is said now.
pub(crate) fn begun(turn: Turn6, parameters: Parameters, rand: u32) -> Exchange6
    requires turn { FitsTurn turn }
    requires rand { rand ≤ 200 }
    requires day { parameters.irt ≤ 86400000 }
    ensures { result ≡ exchanges.begun turn parameters rand }
{
    said(
        turn,
        new_xid(turn),
        turn.at,
        Retrans::first(parameters, rand),
    )
}

impl Exchange6 {
    /// The retransmission of the message, with its parameters.
    fn retrans(self, parameters: Parameters) -> Retrans
        ensures value { result ≡ exchanges.retrans_of parameters self }
        ensures time { result.rt < 2 ^ 32 }
    {
        Retrans {
            rt: u64::from(self.rt),
            sent: self.sent,
            parameters,
        }
    }

    /// The message is said again.
    pub(crate) fn again(self, turn: Turn6, parameters: Parameters) -> Exchange6
        requires turn { FitsTurn turn }
        requires day { parameters.mrt ≤ 86400000 }
        ensures { result ≡ exchanges.again turn parameters self }
    {
        let mut retrans = self.retrans(parameters);
        retrans.next(draw_rand(turn.salt, turn.site.iface.index));
        said(turn, self.xid, self.began, retrans)
    }

    /// The message was said as often as it may be.
    pub(crate) fn is_used_up(self, parameters: Parameters) -> bool
        ensures { result ≡ exchanges.is_used_up parameters self }
    {
        self.retrans(parameters).is_over()
    }

    /// The message is to be said again.
    pub(crate) fn is_due(self, turn: Turn6) -> bool
        ensures { result ≡ exchanges.is_again_due turn self }
    {
        self.due <= turn.at
    }
}

/// The parameters of SOLICIT, with the bound that a server has told.
pub(crate) fn solicit_parameters(turn: Turn6) -> Parameters
    ensures { result ≡ exchanges.solicit_parameters turn }
{
    Parameters {
        mrt: turn.sol_max,
        ..SOLICIT
    }
}
