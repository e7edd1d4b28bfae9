// Reports of failed and late trades: what they must be, who fails, and which days they use.
#![tactic(auto)]

pub mod calendar;
pub mod check;
pub mod open;
mod reason;
pub mod report;
