//! Test cases of timed machines, of plans of prefixes, and of the supervisor of hook children.
#![tactic(auto)]

#[cfg(test)]
mod arp_acd_cases;
#[cfg(test)]
mod hook_child_cases;
#[cfg(test)]
mod ipv4ll_cases;
#[cfg(test)]
mod machine_cases;
#[cfg(test)]
mod prefix_share_cases;
#[cfg(test)]
mod v6_retrans_cases;
