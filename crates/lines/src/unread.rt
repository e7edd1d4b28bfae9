// Why a line was not read: what it should have had, or want of memory.
ghost use Rattle.std.specs.Prelude.{◌≡◌};
ghost use Rattle.lines.specs.declared.unread.Unread.TheVariants as unread;

use crate::expected::Expected;
use std::alloc::AllocFailed;

#[derive(Clone, Copy, Debug, PartialEq, Eq)]
pub enum Unread {
    Malformed(Expected),
    Memory,
}

impl From<Expected> for Unread {
    ghost from_gives = { λ expected e. e ≡ unread.Malformed expected };

    fn from(expected: Expected) -> Unread {
        Unread::Malformed(expected)
    }
}

impl<T: Drop> From<AllocFailed<T>> for Unread {
    ghost from_gives = { λ _ e. e ≡ unread.Memory };

    fn from(_failed: AllocFailed<T>) -> Unread {
        Unread::Memory
    }
}
