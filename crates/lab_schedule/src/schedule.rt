//! All that a lab is to live through: the configuration, the interfaces, what the peer gives out, the beginning, and
//! the events that follow.

use crate::event::LabEvent;
use lab_peer::Pool;
use net_types::IfSpec;
use world::Begin;

/// A schedule.
#[derive(Drop)]
pub struct Schedule {
    /// The text of its configuration.
    pub conf: Vec<u8>,
    pub ifaces: Vec<IfSpec>,
    /// What the peer gives out.
    pub pool: Pool,
    pub begin: Begin,
    pub events: Vec<LabEvent>,
}
