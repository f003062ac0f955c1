//! What a lab is: clients and one scripted server on one clock, what each line of a schedule makes of them, and what is
//! written of it. Definitions, and the exchanges that they speak of: `lab_text` lives a schedule.
#![tactic(auto)]

mod exchange;

pub use exchange::Exchange;
