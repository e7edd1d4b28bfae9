// The lines of a journal: what each says, or what was expected where it cannot be read on.
#![tactic(auto)]

mod call;
mod choice;
pub mod expected;
mod field;
mod keyed;
pub mod line;
mod list;
mod number;
pub mod said;
mod source;
pub mod unread;
