// A part of a penalty, rounded to the nearest twice.
ghost use Rattle.std.specs.Prelude.{◌≡◌, ◌^◌, ◌≤◌};
ghost use Rattle.calculation.specs.Rounding.{whole, part};

use crate::amounts::{Conversion, Part, Worth};
use sheets::units::Rate;

impl Worth {
    // At a rate, in thousandths of a hundredth.
    pub(crate) fn at(self, rate: Rate) -> u64
        ensures value { result ≡ whole self.number rate.number }
        ensures bound { result ≤ 10 ^ 11 }
    {
        (self.number * u64::from(rate.number) + 5_000_000) / 10_000_000
    }

    pub(crate) fn part(self, rate: Rate, by: Conversion) -> Part
        ensures value { result.number ≡ part self.number rate.number by.from by.into }
    {
        let whole = self.at(rate);
        let into = u64::from(by.into);
        Part {
            number: (whole * u64::from(by.from) + 500 * into) / (1000 * into),
        }
    }
}
