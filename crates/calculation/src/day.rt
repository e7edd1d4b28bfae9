// What one used day reads and comes to. Source and day are two parameters, as in the reads that contracts name.
ghost use Rattle.std.specs.Prelude.{◌≡◌, ◌*◌};
ghost use Rattle.sheets.specs.Refusals.{Answers};
ghost use Rattle.calculation.specs.Steps.{result_of, reads_security, reads_currency, gives, ComesTo};
ghost use Rattle.reference.specs.Meaning.{answers};
ghost use Rattle.reports.specs.Terms.{terms_of};
ghost use Rattle.calculation.specs.Penalties.{sheet_if, worth_refusal, day_of_security, day_of};

use crate::amounts::{Amount, Worth};
use crate::parts::Penalty;
use reference::raw;
use reference::source::Source;
use reports::report::{Exchange, Securities};
use sheets::fault::{Fault, Layer, Rule};
use sheets::limits::GREATEST_WORTH;
use sheets::sheet::{CurrencySheet, SecuritySheet};
use sheets::units::{Currency, Security};

// A function for each kind of sheet, as the source has.
pub(crate) fn security_sheet<S: Source>(
    source: &S,
    security: Security,
    day: u16,
) -> Result<SecuritySheet, Fault>
    ensures value { result ≡ result_of (answers (S.meaning source.now)) (reads_security security.number day gives) }
{
    raw::security(source, security.number, day).ok_or_else(|| Layer::Calculation.refuses(
        Rule::SecurityMissing,
        u64::from(security.number),
        u64::from(day),
    ))
}

fn currency_sheet<S: Source>(
    source: &S,
    currency: Currency,
    day: u16,
) -> Result<CurrencySheet, Fault>
    ensures value { result ≡ result_of (answers (S.meaning source.now)) (reads_currency currency.number day gives) }
{
    raw::currency(source, currency.number, day).ok_or_else(|| Layer::Calculation.refuses(
        Rule::CurrencyMissing,
        u64::from(currency.number),
        u64::from(day),
    ))
}

fn sheet_if<S: Source>(
    source: &S,
    needed: bool,
    currency: Currency,
    day: u16,
) -> Result<Option<CurrencySheet>, Fault>
    ensures value { result ≡ result_of (answers (S.meaning source.now)) (sheet_if needed currency.number day) }
{
    needed
        .then(|| currency_sheet(source, currency, day))
        .transpose()
}

// What the securities are worth at the day's price, or the fault that this is too much.
fn worth_of(securities: Securities, price: u32, day: u16) -> Result<Worth, Fault>
    ensures value { Answers (worth_refusal securities.security.number day (securities.quantity * price)) result (λ w. w.number ≡ securities.quantity * price) }
{
    let number = u64::from(securities.quantity) * u64::from(price);
    if number > GREATEST_WORTH {
        return Err(Layer::Calculation.refuses(
            Rule::ValueTooLarge,
            u64::from(securities.security.number),
            u64::from(day),
        ));
    }
    Ok(Worth { number })
}

impl Penalty {
    #[tactic(auto, using(crate::proofs::DaySteps::day_answers, crate::proofs::Binding::result_bind))]
    fn day_of_security<S: Source>(
        self,
        source: &S,
        securities: Securities,
        day: u16,
    ) -> Result<Amount, Fault>
        ensures value { ComesTo (λ a. a.number) (answers (S.meaning source.now)) (day_of_security (terms_of self.trade) self.side self.currency.number securities.security.number securities.quantity day) result }
    {
        let sheet = security_sheet(source, securities.security, day)?;
        let priced = sheet.currency;
        let own = sheet_if(source, self.needs_penalty_sheet(priced), self.currency, day)?;
        let price = sheet_if(source, self.needs_price_sheet(priced), priced, day)?;
        let worth = worth_of(securities, sheet.price, day)?;
        Ok(self.parts(worth, sheet, own, price))
    }

    // What one used day comes to.
    pub(crate) fn day_of<S: Source>(self, source: &S, day: u16) -> Result<Amount, Fault>
        ensures value { ComesTo (λ a. a.number) (answers (S.meaning source.now)) (day_of (terms_of self.trade) self.side self.currency.number day) result }
    {
        match self.trade.exchange {
            Exchange::AgainstPayment(securities, _)
            | Exchange::FreeOfPayment(securities)
            | Exchange::WithPayment(securities, _) => self.day_of_security(source, securities, day),
            Exchange::PaymentOnly(_) => {
                let sheet = currency_sheet(source, self.currency, day)?;
                let part = self.cash_part(sheet.rate);
                Ok(Amount {
                    number: part.number,
                })
            }
        }
    }
}
