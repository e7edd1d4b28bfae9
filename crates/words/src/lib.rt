// The words of a line, and the numbers, decimals, days and currencies that they write.
#![tactic(auto)]

pub mod read;
pub mod scan;
