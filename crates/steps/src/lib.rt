// Steps: a source with entries of its own, each of which holds until the next.
#![tactic(auto)]

pub mod entries;
