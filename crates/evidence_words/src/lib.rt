//! What the turns of a life show: what came, which frames were offered, and what it is that an address was probed.
#![tactic(auto)]
