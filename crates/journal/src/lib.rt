// A whole journal, read from its text.
#![tactic(auto)]

pub mod read;
pub mod said;
