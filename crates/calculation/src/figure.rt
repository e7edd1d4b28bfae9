// A penalty's currency and amount.
ghost use Rattle.std.specs.Prelude.{◌≡◌, ◌+◌, ◌*◌, ◌^◌, ◌≤◌, IfOk};
ghost use Rattle.sheets.specs.Limits.{last_day};
ghost use Rattle.reports.specs.Days.{days_of};
ghost use Rattle.calculation.specs.Steps.{result_of, ComesTo};
ghost use Rattle.reference.specs.Meaning.{answers};
ghost use Rattle.reports.specs.Terms.{terms_of};
ghost use Rattle.calculation.specs.Penalties.{is_opted, free_currency, currency_of, day_of, plus, sum_of, penalty};

use crate::basis::Basis;
use crate::charge::Figure;
use crate::day::security_sheet;
use crate::parts::{EURO, KRONE, Penalty};
use reference::source::Source;
use reports::report::{Exchange, Side, Trade};
use sheets::fault::Fault;
use sheets::units::{Currency, Party};

// The marks are a fixed number, one for each depository.
fn is_opted(opted: &[bool; 90], party: Party) -> bool
    ensures value { result ≡ is_opted opted.now party.number }
{
    opted[usize::from(party.number / 100 - 10)]
}

fn free_currency(opted: &[bool; 90], trade: Trade, priced: Currency) -> Currency
    ensures value { result.number ≡ free_currency opted.now (terms_of trade) priced.number }
{
    if priced == KRONE && (is_opted(opted, trade.deliverer) || is_opted(opted, trade.receiver)) {
        KRONE
    } else {
        EURO
    }
}

impl<S: Source> Basis<'_, S> {
    fn currency_of(&self, trade: Trade) -> Result<Currency, Fault>
        ensures value { ComesTo (λ c. c.number) (answers (S.meaning self.now.source.now)) (currency_of self.now.opted.now (terms_of trade) (days_of self.now.calendar.now.business trade.span)) result }
    {
        match trade.exchange {
            Exchange::AgainstPayment(_, cash)
            | Exchange::WithPayment(_, cash)
            | Exchange::PaymentOnly(cash) => Ok(cash.currency),
            Exchange::FreeOfPayment(securities) => {
                let last = self.calendar.last_day(trade.span);
                let sheet = security_sheet(self.source, securities.security, last)?;
                Ok(free_currency(self.opted, trade, sheet.currency))
            }
        }
    }

    // The sum with what the day comes to.
    fn with_day(&self, penalty: Penalty, sum: u64, day: u16) -> Result<u64, Fault>
        requires { sum ≤ 2 * 10 ^ 16 * last_day }
        ensures value { result ≡ plus sum (result_of (answers (S.meaning self.now.source.now)) (day_of (terms_of penalty.trade) penalty.side penalty.currency.number day)) }
        ensures bound { IfOk result (λ a. a ≤ sum + 2 * 10 ^ 16) }
    {
        let amount = penalty.day_of(self.source, day)?;
        Ok(sum + amount.number)
    }

    #[tactic(auto, using(crate::proofs::Sums::sum_used, crate::proofs::Sums::sum_skip, crate::proofs::Sums::sum_stop))]
    fn amount_of(&self, penalty: Penalty) -> Result<u64, Fault>
        ensures value { result ≡ result_of (answers (S.meaning self.now.source.now)) (sum_of (day_of (terms_of penalty.trade) penalty.side penalty.currency.number) (days_of self.now.calendar.now.business penalty.trade.span)) }
    {
        let span = penalty.trade.span;
        let business = &self.calendar.business;
        let mut sum = 0;
        // A `for` with `?` is the plain form of a sum whose steps may fail.
        for day in span.from..span.end {
            if business[usize::from(day)] {
                sum = self.with_day(penalty, sum, day)?;
            }
        }
        Ok(sum)
    }

    // The currency and amount of one penalty, or the first fault.
    #[tactic(auto, using(crate::proofs::Binding::result_bind), unfolding(crate::specs::Penalties::penalty))]
    pub(crate) fn figure_of(&self, trade: Trade, side: Side) -> Result<Figure, Fault>
        ensures value { result ≡ result_of (answers (S.meaning self.now.source.now)) (penalty self.now.opted.now (terms_of trade) side (days_of self.now.calendar.now.business trade.span)) }
    {
        let currency = self.currency_of(trade)?;
        let amount = self.amount_of(Penalty {
            trade,
            side,
            currency,
        })?;
        Ok(Figure {
            currency: currency.number,
            amount,
        })
    }
}
