//! That the lines of a transcript are within the types that hold them. Definitions, no code.
#![tactic(auto)]
