// Questions and entries with any numbers: what lies outside the units has no sheet, and no entry.
ghost use Rattle.std.specs.Prelude.{◌≡◌};
ghost use Rattle.reference.specs.Meaning.{answers, SecurityEntered, CurrencyEntered, Unless, security_entry_refusal, currency_entry_refusal};

use crate::source::Source;
use sheets::fault::{Fault, Layer};
use sheets::make;
use sheets::sheet::{CurrencySheet, SecuritySheet};
use sheets::units::{Currency, Day, Security};

// Two functions for each call, as the interface has: a generic one would only pick between its methods.
pub fn security<S: Source>(source: &S, security: u16, day: u16) -> Option<SecuritySheet>
    ensures value { result ≡ (answers (S.meaning source.now)).securities security day }
{
    let security = Security::try_from(security).ok()?;
    let day = Day::try_from(day).ok()?;
    source.security(security, day)
}

pub fn currency<S: Source>(source: &S, currency: u8, day: u16) -> Option<CurrencySheet>
    ensures value { result ≡ (answers (S.meaning source.now)).currencies currency day }
{
    let currency = Currency::try_from(currency).ok()?;
    let day = Day::try_from(day).ok()?;
    source.currency(currency, day)
}

pub fn enter_security<S: Source>(
    source: &mut S,
    security: u16,
    day: u16,
    sheet: SecuritySheet,
) -> Result<Day, Fault>
    ensures entered { Unless (security_entry_refusal security day) (S.meaning source.old) (S.meaning source.new) result (SecurityEntered (S.meaning source.old) (S.meaning source.new) security day sheet result) }
{
    let security = make::security(Layer::Source, security)?;
    let day = make::day(Layer::Source, day)?;
    source.enter_security(security, day, sheet)
}

pub fn enter_currency<S: Source>(
    source: &mut S,
    day: u16,
    sheet: CurrencySheet,
) -> Result<Day, Fault>
    ensures entered { Unless (currency_entry_refusal day) (S.meaning source.old) (S.meaning source.new) result (CurrencyEntered (S.meaning source.old) (S.meaning source.new) day sheet result) }
{
    let day = make::day(Layer::Source, day)?;
    source.enter_currency(day, sheet)
}
