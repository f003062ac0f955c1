//! What a transcript tells: its configuration, its interfaces and its lives, each with its opening and its turns; and
//! which lines spell that. Definitions: `transcript_read` reads a text.
#![tactic(auto)]
