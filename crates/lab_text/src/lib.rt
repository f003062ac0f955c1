//! The text of a lab: a schedule is lived by clients and a scripted server, and what they do is written down.
#![tactic(auto)]

mod exchanges;
mod frames;
mod lab;
mod leases;
mod opening;
mod text;

pub use text::lab_text;
