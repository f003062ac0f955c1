//! The judges of a life.
use audit_seats::Watched;

/// The judges of a life after some turns, and how many these are.
#[derive(Drop)]
pub struct Seated<J> {
    pub watched: Vec<Watched<J>>,
    pub count: u64,
}
