//! Test cases of what the daemon is made of, that no stored transcript and no row tells.
#![tactic(auto)]

#[cfg(test)]
mod client_core_cases;
#[cfg(test)]
mod interfaces;
#[cfg(test)]
mod lease_file_cases;
#[cfg(test)]
mod name_cases;
