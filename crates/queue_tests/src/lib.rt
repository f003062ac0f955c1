//! Test cases of the queue of what is due, and of the search that it is built on, with their comparisons counted.
#![tactic(auto)]

#[cfg(test)]
mod compared;
#[cfg(test)]
mod counted_search_cases;
#[cfg(test)]
mod timer_queue_cases;
