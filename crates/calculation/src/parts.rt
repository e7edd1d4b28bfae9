// The parts of one day.
ghost use Rattle.std.specs.Prelude.{◌≡◌, ◌^◌, ◌≤◌};
ghost use Rattle.reports.specs.Terms.{exchange_kind, terms_of};
ghost use Rattle.calculation.specs.Penalties.{by_cash_rate, has_cash_part, needs_penalty_sheet, needs_price_sheet, euro_value, rate_of, cash_part, security_rate, price_value, penalty_value, parts_of};

use crate::amounts::{Amount, Conversion, Part, Worth};
use reports::report::{Exchange, Side, Trade};
use sheets::sheet::{CurrencySheet, SecuritySheet};
use sheets::units::{Currency, Rate};

pub(crate) const EURO: Currency = Currency { number: 0 };

pub(crate) const KRONE: Currency = Currency { number: 1 };

// What a euro is worth, in millionths of a euro.
const EURO_VALUE: u32 = 1_000_000;

// One side's penalty of a trade, in its currency. Nothing compares penalties.
#[derive(Clone, Copy)]
pub(crate) struct Penalty {
    pub(crate) trade: Trade,
    pub(crate) side: Side,
    pub(crate) currency: Currency,
}

fn euro_value(currency: Currency, sheet: Option<CurrencySheet>) -> u32
    ensures value { result ≡ euro_value currency.number sheet }
    ensures low { 1 ≤ result }
    ensures high { result ≤ 10 ^ 7 }
{
    match sheet {
        Some(sheet) if currency != EURO => sheet.value,
        _ => EURO_VALUE,
    }
}

// No rate, where no sheet was needed.
fn rate_of(sheet: Option<CurrencySheet>) -> Rate
    ensures value { result.number ≡ rate_of sheet }
{
    sheet.map_or(Rate { number: 0 }, |sheet| sheet.rate)
}

impl Penalty {
    fn by_cash_rate(self) -> bool
        ensures value { result ≡ by_cash_rate (exchange_kind self.trade.exchange) self.side }
    {
        matches!(self.trade.exchange, Exchange::AgainstPayment(..)) && self.side == Side::Receiver
    }

    fn has_cash_part(self) -> bool
        ensures value { result ≡ has_cash_part (exchange_kind self.trade.exchange) }
    {
        matches!(
            self.trade.exchange,
            Exchange::WithPayment(..) | Exchange::PaymentOnly(_)
        )
    }

    pub(crate) fn needs_penalty_sheet(self, priced: Currency) -> bool
        ensures value { result ≡ needs_penalty_sheet (exchange_kind self.trade.exchange) self.side priced.number self.currency.number }
    {
        self.by_cash_rate()
            || self.has_cash_part()
            || (priced != self.currency && self.currency != EURO)
    }

    pub(crate) fn needs_price_sheet(self, priced: Currency) -> bool
        ensures value { result ≡ needs_price_sheet priced.number self.currency.number }
    {
        priced != self.currency && priced != EURO
    }

    pub(crate) fn cash_part(self, rate: Rate) -> Part
        ensures value { result.number ≡ cash_part (terms_of self.trade) rate.number }
    {
        match self.trade.exchange {
            Exchange::WithPayment(_, cash) | Exchange::PaymentOnly(cash) => {
                let worth = Worth {
                    number: 100 * cash.amount,
                };
                worth.part(rate, Conversion { from: 1, into: 1 })
            }
            _ => Part { number: 0 },
        }
    }

    fn security_rate(self, sheet: SecuritySheet, own: Option<CurrencySheet>) -> Rate
        ensures value { result.number ≡ security_rate (terms_of self.trade) self.side sheet own }
    {
        if self.by_cash_rate() {
            rate_of(own)
        } else {
            sheet.class.rate()
        }
    }

    // From the price's currency into the penalty's own, by their sheets.
    fn conversion(
        self,
        priced: Currency,
        own: Option<CurrencySheet>,
        price: Option<CurrencySheet>,
    ) -> Conversion
        ensures from { result.from ≡ price_value priced.number self.currency.number price }
        ensures into { result.into ≡ penalty_value priced.number self.currency.number own }
    {
        if priced == self.currency {
            return Conversion { from: 1, into: 1 };
        }
        let from = euro_value(priced, price);
        let into = euro_value(self.currency, own);
        Conversion { from, into }
    }

    // The parts of a day, each rounded by itself: of the security's worth, and of the cash.
    pub(crate) fn parts(
        self,
        worth: Worth,
        sheet: SecuritySheet,
        own: Option<CurrencySheet>,
        price: Option<CurrencySheet>,
    ) -> Amount
        ensures value { result.number ≡ parts_of (terms_of self.trade) self.side self.currency.number worth.number sheet own price }
    {
        let rate = self.security_rate(sheet, own);
        let by = self.conversion(sheet.currency, own, price);
        let security = worth.part(rate, by);
        let cash = self.cash_part(rate_of(own));
        Amount {
            number: security.number + cash.number,
        }
    }
}
