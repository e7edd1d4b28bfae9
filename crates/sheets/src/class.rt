// The class of a security, by which its daily penalty rate is set.
ghost use Rattle.std.specs.Prelude.{◌≡◌};
ghost use Rattle.sheets.specs.Classes.{class_number, class_of, class_rate};
ghost use Rattle.sheets.specs.Units.{or_outside};

use crate::units::{Outside, Rate};

#[derive(Clone, Copy, Debug, PartialEq, Eq)]
pub enum Class {
    LiquidShare = 1,
    IlliquidShare = 2,
    GrowthMarket = 3,
    CorporateBond = 4,
    GrowthMarketBond = 5,
    PublicBond = 6,
}

impl TryFrom<u8> for Class {
    type Error = Outside;

    ghost try_from_gives = { λ n r. r ≡ or_outside (class_of n) };

    fn try_from(number: u8) -> Result<Class, Outside> {
        match number {
            1 => Ok(Class::LiquidShare),
            2 => Ok(Class::IlliquidShare),
            3 => Ok(Class::GrowthMarket),
            4 => Ok(Class::CorporateBond),
            5 => Ok(Class::GrowthMarketBond),
            6 => Ok(Class::PublicBond),
            _ => Err(Outside),
        }
    }
}

impl Class {
    pub fn number(self) -> u8
        ensures value { result ≡ class_number self }
    {
        self as u8
    }

    pub fn rate(self) -> Rate
        ensures value { result.number ≡ class_rate self }
    {
        let number = match self {
            Class::LiquidShare => 10_000,
            Class::IlliquidShare => 5_000,
            Class::GrowthMarket => 2_500,
            Class::CorporateBond => 2_000,
            Class::GrowthMarketBond => 1_500,
            Class::PublicBond => 1_000,
        };
        Rate { number }
    }
}
