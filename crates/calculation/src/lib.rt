// What a report is charged: who pays whom, in which currency and how much.
#![tactic(auto)]

mod amounts;
mod basis;
pub mod charge;
pub mod charges;
mod day;
mod figure;
mod parts;
mod rounding;
