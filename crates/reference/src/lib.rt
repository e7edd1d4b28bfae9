// The interface of reference sources, where the sheets of securities and currencies come from.
#![tactic(auto)]

pub mod entry;
pub mod raw;
pub mod source;
