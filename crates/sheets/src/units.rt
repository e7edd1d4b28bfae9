// Numbers that cannot lie outside their limits: the keys of sheets, the parties, and daily rates. Each is a type of its own, so
// that none is taken for another; with its limits as const parameters it would be told apart by these alone.
ghost use Rattle.std.specs.Prelude.{◌≡◌, ◌≤◌};
ghost use Rattle.sheets.specs.Limits.{last_day, last_security, last_currency, first_party, last_party, greatest_rate};

use crate::limits::{
    FIRST_PARTY, GREATEST_RATE, LAST_CURRENCY, LAST_DAY, LAST_PARTY, LAST_SECURITY,
};

// The number is outside the limits.
#[derive(Clone, Copy, Debug, PartialEq, Eq)]
pub struct Outside;

// A day of the book's year.
#[derive(Clone, Copy, Debug, PartialEq, Eq)]
pub struct Day {
    pub number: u16,
    ghost limit: { number ≤ last_day },
}

#[derive(Clone, Copy, Debug, PartialEq, Eq)]
pub struct Security {
    pub number: u16,
    ghost limits: { (1 ≤ number) × (number ≤ last_security) },
}

#[derive(Clone, Copy, Debug, PartialEq, Eq)]
pub struct Currency {
    pub number: u8,
    ghost limit: { number ≤ last_currency },
}

#[derive(Clone, Copy, Debug, PartialEq, Eq)]
pub struct Party {
    pub number: u16,
    ghost limits: { (first_party ≤ number) × (number ≤ last_party) },
}

// A daily rate, in hundred-millionths.
#[derive(Clone, Copy, Debug, PartialEq, Eq)]
pub struct Rate {
    pub number: u32,
    ghost limit: { number ≤ greatest_rate },
}

impl TryFrom<u16> for Day {
    ghost use Rattle.sheets.specs.Refusals.{no_day};
    ghost use Rattle.sheets.specs.Units.{Numbers};

    type Error = Outside;

    ghost try_from_gives = { λ n r. Numbers (no_day n) r (λ d. d.number ≡ n) };

    fn try_from(number: u16) -> Result<Day, Outside> {
        if number > LAST_DAY {
            return Err(Outside);
        }
        Ok(Day { number })
    }
}

impl TryFrom<u16> for Security {
    ghost use Rattle.sheets.specs.Refusals.{no_security};
    ghost use Rattle.sheets.specs.Units.{Numbers};

    type Error = Outside;

    ghost try_from_gives = { λ n r. Numbers (no_security n) r (λ s. s.number ≡ n) };

    fn try_from(number: u16) -> Result<Security, Outside> {
        if number == 0 || number > LAST_SECURITY {
            return Err(Outside);
        }
        Ok(Security { number })
    }
}

impl TryFrom<u8> for Currency {
    ghost use Rattle.sheets.specs.Refusals.{no_currency};
    ghost use Rattle.sheets.specs.Units.{Numbers};

    type Error = Outside;

    ghost try_from_gives = { λ n r. Numbers (no_currency n) r (λ c. c.number ≡ n) };

    fn try_from(number: u8) -> Result<Currency, Outside> {
        if number > LAST_CURRENCY {
            return Err(Outside);
        }
        Ok(Currency { number })
    }
}

impl TryFrom<u16> for Party {
    ghost use Rattle.sheets.specs.Units.{Numbers, no_party};

    type Error = Outside;

    ghost try_from_gives = { λ n r. Numbers (no_party n) r (λ p. p.number ≡ n) };

    fn try_from(number: u16) -> Result<Party, Outside> {
        if number < FIRST_PARTY || number > LAST_PARTY {
            return Err(Outside);
        }
        Ok(Party { number })
    }
}

impl TryFrom<u64> for Rate {
    ghost use Rattle.sheets.specs.Units.{Numbers, no_rate};

    type Error = Outside;

    ghost try_from_gives = { λ n r. Numbers (no_rate n) r (λ a. a.number ≡ n) };

    fn try_from(number: u64) -> Result<Rate, Outside> {
        if number > GREATEST_RATE {
            return Err(Outside);
        }
        Ok(Rate {
            number: number as u32,
        })
    }
}
