// A cutter as a stranger would write it, from the interface alone.
#![tactic(auto)]

pub mod each;
