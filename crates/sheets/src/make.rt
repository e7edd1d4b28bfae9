// Units and sheets from raw numbers, or the first rule that the numbers break.
ghost use Rattle.std.specs.Prelude.{◌≡◌, Ok, Err, MatchResult};
ghost use Rattle.sheets.specs.Limits.{least_value, greatest_value};
ghost use Rattle.sheets.specs.Refusals.{Answers, fault, day_refusal, security_refusal, security_sheet_refusal, currency_sheet_refusal};
ghost use Rattle.sheets.specs.Made.{SecurityOf, CurrencyOf};

use crate::class::Class;
use crate::fault::{Fault, Layer, Rule};
use crate::limits::GREATEST_PRICE;
use crate::sheet::{CurrencySheet, SecuritySheet};
use crate::units::{Currency, Day, Outside, Rate, Security};

// The unit of a number, or the rule that the number breaks.
fn unit<T: TryFrom<u16, Error = Outside>>(layer: Layer, rule: Rule, number: u16) -> Result<T, Fault>
    ensures made { MatchResult result (λ a. T.try_from_gives number (Ok a)) (λ f. T.try_from_gives number (Err (record {})) × (f ≡ fault rule layer number 0)) }
{
    T::try_from(number).map_err(|_| layer.refuses(rule, u64::from(number), 0))
}

// A day of the year, as the layer that asks for it.
pub fn day(layer: Layer, number: u16) -> Result<Day, Fault>
    ensures made { Answers (day_refusal layer number) result (λ d. d.number ≡ number) }
{
    unit(layer, Rule::NoSuchDay, number)
}

// A security, as the layer that asks for it.
pub fn security(layer: Layer, number: u16) -> Result<Security, Fault>
    ensures made { Answers (security_refusal layer number) result (λ s. s.number ≡ number) }
{
    unit(layer, Rule::NoSuchSecurity, number)
}

pub fn security_sheet(price: u64, currency: u8, class: u8) -> Result<SecuritySheet, Fault>
    ensures made { Answers (security_sheet_refusal price currency class) result (SecurityOf price currency class) }
{
    let refused = |rule, number| Layer::Sheet.refuses(rule, number, 0);
    if price == 0 || price > GREATEST_PRICE {
        return Err(refused(Rule::ValueOutside, price));
    }
    let class = Class::try_from(class).map_err(|_| refused(Rule::NoSuchClass, u64::from(class)))?;
    let currency = Currency::try_from(currency).map_err(|_| refused(
        Rule::NoSuchCurrency,
        u64::from(currency),
    ))?;
    Ok(SecuritySheet {
        price: price as u32,
        currency,
        class,
    })
}

// The least euro value of a currency, of any number: the value is judged before it.
fn least_value(currency: u8) -> u64
    ensures value { result ≡ least_value currency }
{
    match currency {
        0 => 1_000_000,
        1 => 10_000,
        _ => 1,
    }
}

// The greatest euro value, likewise; each of the two is a table of its own numbers.
fn greatest_value(currency: u8) -> u64
    ensures value { result ≡ greatest_value currency }
{
    match currency {
        0 => 1_000_000,
        _ => 10_000_000,
    }
}

pub fn currency_sheet(currency: u8, rate: u64, value: u64) -> Result<CurrencySheet, Fault>
    ensures made { Answers (currency_sheet_refusal currency rate value) result (CurrencyOf currency rate value) }
{
    let refused = |rule, number| Layer::Sheet.refuses(rule, number, 0);
    if value < least_value(currency) || value > greatest_value(currency) {
        return Err(refused(Rule::ValueOutside, value));
    }
    let currency = Currency::try_from(currency).map_err(|_| refused(
        Rule::NoSuchCurrency,
        u64::from(currency),
    ))?;
    let rate = Rate::try_from(rate).map_err(|_| refused(Rule::RateTooHigh, rate))?;
    Ok(CurrencySheet {
        currency,
        rate,
        value: value as u32,
    })
}
