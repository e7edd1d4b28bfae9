// Units and sheets that cannot lie outside their limits, and the faults by which a call is turned away.
#![tactic(auto)]

pub mod class;
pub mod fault;
pub mod limits;
pub mod make;
pub mod sheet;
pub mod units;
