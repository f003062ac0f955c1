//! The lines that say why.
ghost use Rattle.std.specs.Prelude.{◌≡◌, ◌++◌, Some};
ghost use Rattle.row_reasons.specs.Texts.{line_text, probes_text, reason_text};

use crate::reason::Reason;
use basis_turns::{Basis, Granting, ItemTurns, LeaseTurns, ProbedTurns};
use std::fmt;
use std::fmt::Display;
use world::HostRow;

/// An address that is shown after a turn of a life, and why it may be held: lives are counted from 1 and turns too, and
/// an opening is turn 0.
#[derive(Clone, Copy)]
pub struct BasisLine {
    pub life: u64,
    pub turn: usize,
    pub row: HostRow,
    pub reason: Reason,
}

/// The turns of probes, in words.
#[derive(Clone, Copy)]
struct Probes(ProbedTurns);

impl Display for Probes {
    ghost output = { λ probes. Some (probes_text probes.0) };

    fn fmt<W: fmt::Write>(&self, f: &mut fmt::Formatter<W>) -> fmt::Result {
        let ProbedTurns { probes, fourth } = self.0;
        write!(
            f,
            "probes {} {} {} fourth {fourth}",
            probes.first, probes.second, probes.third
        )
    }
}

impl Display for Reason {
    ghost output = { λ reason. Some (reason_text reason) };

    fn fmt<W: fmt::Write>(&self, f: &mut fmt::Formatter<W>) -> fmt::Result {
        match *self {
            Reason::Own(Basis::Static) => write!(f, "static"),
            Reason::Own(
                Basis::Lease4(
                    LeaseTurns {
                        granting: Granting { request, ack },
                        probed: None,
                    },
                ),
            ) => write!(f, "lease4 request {request} ack {ack}"),
            Reason::Own(
                Basis::Lease4(
                    LeaseTurns {
                        granting: Granting { request, ack },
                        probed: Some(probed),
                    },
                ),
            ) => write!(f, "lease4 request {request} ack {ack} {}", Probes(probed)),
            Reason::Own(Basis::Lease6(ItemTurns { iaid, reply })) => {
                write!(f, "lease6 {iaid} reply {reply}")
            }
            Reason::Own(Basis::LinkLocal(probed)) => write!(f, "linklocal {}", Probes(probed)),
            Reason::Kept => write!(f, "kept"),
            Reason::Share(upstream) => write!(f, "share {upstream}"),
        }
    }
}

impl Display for BasisLine {
    ghost output = { λ line. Some (line_text line) };

    fn fmt<W: fmt::Write>(&self, f: &mut fmt::Formatter<W>) -> fmt::Result {
        write!(
            f,
            "basis {} {} {} {}\n",
            self.life, self.turn, self.row, self.reason
        )
    }
}
