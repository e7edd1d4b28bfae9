// What a source knows of a security and of a currency on a day.
ghost use Rattle.std.specs.Prelude.{◌≤◌};
ghost use Rattle.sheets.specs.Limits.{greatest_price, least_value, greatest_value};

use crate::class::Class;
use crate::units::{Currency, Rate};

// A price is in ten-thousandths of a unit of its currency.
#[derive(Clone, Copy, Debug, PartialEq, Eq)]
pub struct SecuritySheet {
    pub price: u32,
    pub currency: Currency,
    pub class: Class,
    ghost priced: { (1 ≤ price) × (price ≤ greatest_price) },
}

// The euro value is in millionths of a euro.
#[derive(Clone, Copy, Debug, PartialEq, Eq)]
pub struct CurrencySheet {
    pub currency: Currency,
    pub rate: Rate,
    pub value: u32,
    ghost valued: { (least_value currency.number ≤ value) × (value ≤ greatest_value currency.number) },
}
