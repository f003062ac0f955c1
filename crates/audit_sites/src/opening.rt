//! The opening of a life.
use crate::managing::Managing;
use crate::reads::FileRead;
use net_types::Mac;
use world::Begin;

/// What an opening told so far: how the life begins, its managed interfaces, the hardware addresses of all interfaces,
/// and the files that were read.
#[derive(Drop)]
pub struct Opening {
    pub managed: Managing,
    pub own: Vec<Mac>,
    pub begin: Begin,
    pub reads: Vec<FileRead>,
}
