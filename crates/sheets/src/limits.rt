// The limits of the units, as the code tests them.
pub const LAST_DAY: u16 = 371;

pub const LAST_SECURITY: u16 = 9_999;

pub const LAST_CURRENCY: u8 = 15;

pub const LAST_SETTLEMENT_CURRENCY: u8 = 1;

pub const FIRST_PARTY: u16 = 1_000;

pub const LAST_PARTY: u16 = 9_999;

pub const GREATEST_PRICE: u64 = 1_000_000_000;

pub const GREATEST_QUANTITY: u64 = 1_000_000_000;

pub const GREATEST_CASH: u64 = 100_000_000_000;

pub const GREATEST_RATE: u64 = 100_000;

pub const GREATEST_WORTH: u64 = 10_000_000_000_000;
