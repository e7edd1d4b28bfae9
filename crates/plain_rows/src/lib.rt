// Plain rows: a source that is rows which the caller lends.
#![tactic(auto)]

pub mod plain;
pub mod rows;
