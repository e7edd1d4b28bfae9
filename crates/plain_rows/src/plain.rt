// A source that is the caller's rows.
ghost use Rattle.std.specs.Prelude.{◌≡◌, length, replicate};
ghost use Rattle.reference.specs.Meaning.{SecurityEntered, CurrencyEntered};
ghost use Rattle.plain_rows.specs.Rows.{any_number, own_number, unused_row, RowsAfter};
ghost use Rattle.plain_rows.specs.Plain.{plain_meaning};
ghost use Rattle.plain_rows.specs.Own.{rows_own};

use crate::rows::{Row, enter_row, row_sheet};
use reference::source::Source;
use sheets::fault::Fault;
use sheets::sheet::{CurrencySheet, SecuritySheet};
use sheets::units::{Currency, Day, Security};

#[derive(Drop)]
pub struct PlainRows<'a> {
    securities: &'a mut [Row<SecuritySheet>],
    currencies: &'a mut [Row<CurrencySheet>],
}

impl<'a> PlainRows<'a> {
    // The rows may hold anything before, so all are marked unused.
    pub fn new(
        securities: &'a mut [Row<SecuritySheet>],
        currencies: &'a mut [Row<CurrencySheet>],
    ) -> PlainRows<'a>
        ensures made { (result.securities.now ≡ replicate (length securities.old) unused_row) × (result.currencies.now ≡ replicate (length currencies.old) unused_row) }
    {
        securities.fill(Row::unused());
        currencies.fill(Row::unused());
        PlainRows {
            securities,
            currencies,
        }
    }
}

// A method for each kind of sheet, as the interface has.
impl<'a> Source for PlainRows<'a> {
    ghost meaning = { plain_meaning };

    ghost own = { λ s. rows_own s.currencies.now };

    fn security(&self, security: Security, day: Day) -> Option<SecuritySheet> {
        row_sheet(self.securities, security.number, day.number)
    }

    fn currency(&self, currency: Currency, day: Day) -> Option<CurrencySheet> {
        row_sheet(self.currencies, u16::from(currency.number), day.number)
    }

    fn enter_security(
        &mut self,
        security: Security,
        day: Day,
        sheet: SecuritySheet,
    ) -> Result<Day, Fault>
        ensures entered { SecurityEntered (plain_meaning self.old) (plain_meaning self.new) security.number day.number sheet result }
        ensures after { RowsAfter any_number self.old.securities.now self.new.securities.now security.number day.number sheet result }
        ensures same { self.new.currencies.now ≡ self.old.currencies.now }
    {
        enter_row(self.securities, security.number, day, sheet)
    }

    fn enter_currency(&mut self, day: Day, sheet: CurrencySheet) -> Result<Day, Fault>
        ensures entered { CurrencyEntered (plain_meaning self.old) (plain_meaning self.new) day.number sheet result }
        ensures after { RowsAfter own_number self.old.currencies.now self.new.currencies.now sheet.currency.number day.number sheet result }
        ensures same { self.new.securities.now ≡ self.old.securities.now }
    {
        enter_row(
            self.currencies,
            u16::from(sheet.currency.number),
            day,
            sheet,
        )
    }
}
