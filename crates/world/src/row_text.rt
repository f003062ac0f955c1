//! The texts of the host's rows.
ghost use Rattle.std.specs.Prelude.{Some};
ghost use Rattle.world.specs.RowText.{row_text, way_text};

use crate::rows::{HostRow, Via};
use std::fmt;
use std::fmt::Display;

/// What a route's text has between its destination and its metric: a blank and words, or nothing for a route on the
/// link.
impl Display for Via {
    ghost output = { λ via. Some (way_text via) };

    fn fmt<W: fmt::Write>(&self, f: &mut fmt::Formatter<W>) -> fmt::Result {
        match self {
            Via::OnLink => Ok(()),
            Via::Reject => f.write_str(" reject"),
            Via::Gate4(gate) => write!(f, " via {gate}"),
            Via::Gate6(gate) => write!(f, " via {gate}"),
        }
    }
}

#[tactic(auto, unfolding(crate::specs::RowText::row_text))]
impl Display for HostRow {
    ghost output = { λ row. Some (row_text row) };

    fn fmt<W: fmt::Write>(&self, f: &mut fmt::Formatter<W>) -> fmt::Result {
        match self {
            HostRow::Addr { iface, net } => write!(f, "addr {} {net}", iface.number),
            HostRow::Route {
                iface,
                dest,
                via,
                metric,
            } => write!(f, "route {} {dest}{via} metric {metric}", iface.number),
        }
    }
}
