//! Questions to devices and their answers, one after another: what a life asks is a function of its state and of the
//! answers.
#![tactic(auto)]
