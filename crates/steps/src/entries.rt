// A source with entries of its own, each of which holds from its day on, until the next of its number. Number
// and day are two parameters, as in the tables that contracts name.
// What searches the entries is not inlined, as in the rows that it stands on.
ghost use Rattle.std.specs.Prelude.{◌≡◌, replicate, IfOk};
ghost use Rattle.reference.specs.Meaning.{SecurityEntered, CurrencyEntered};
ghost use Rattle.plain_rows.specs.Rows.{any_number, own_number, unused_row, rows_table, RowEntered, RowsAfter};
ghost use Rattle.carry.specs.Carried.{carried, spread, whole_year};
ghost use Rattle.carry.specs.Laws.{Greatest, IsLatest};
ghost use Rattle.steps.specs.Steps.{entries, steps_meaning};
ghost use Rattle.plain_rows.specs.Own.{rows_own};
ghost use Rattle.carry.specs.Own.{carried_own};

use plain_rows::rows::{Filed, Row, enter_row, row_sheet};
use reference::source::Source;
use sheets::fault::Fault;
use sheets::limits::LAST_DAY;
use sheets::sheet::{CurrencySheet, SecuritySheet};
use sheets::units::{Currency, Day, Security};

// Of each kind; a fixed number, since the source asks for no memory.
const ENTRIES: usize = 64;

#[derive(Drop)]
pub struct Steps {
    securities: [Row<SecuritySheet>; ENTRIES],
    currencies: [Row<CurrencySheet>; ENTRIES],
}

impl Steps {
    pub fn new() -> Steps
        ensures made { (result.securities ≡ replicate entries unused_row) × (result.currencies ≡ replicate entries unused_row) }
    {
        Steps {
            securities: [Row::unused(); ENTRIES],
            currencies: [Row::unused(); ENTRIES],
        }
    }
}

// A method for each kind of sheet, as the interface has.
impl Source for Steps {
    ghost meaning = { steps_meaning };

    ghost own = { λ s. carried_own (rows_table own_number s.currencies) whole_year (rows_own s.currencies) };

    fn security(&self, security: Security, day: Day) -> Option<SecuritySheet>
        ensures value { result ≡ (steps_meaning self.now).securities.sheet security.number day.number }
        ensures latest { IsLatest ((rows_table any_number self.now.securities).sheet security.number) whole_year day.number result }
    {
        step_sheet(&self.securities, security.number, day)
    }

    fn currency(&self, currency: Currency, day: Day) -> Option<CurrencySheet>
        ensures value { result ≡ (steps_meaning self.now).currencies.sheet currency.number day.number }
        ensures latest { IsLatest ((rows_table own_number self.now.currencies).sheet currency.number) whole_year day.number result }
    {
        step_sheet(&self.currencies, u16::from(currency.number), day)
    }

    fn enter_security(
        &mut self,
        security: Security,
        day: Day,
        sheet: SecuritySheet,
    ) -> Result<Day, Fault>
        ensures entered { SecurityEntered (steps_meaning self.old) (steps_meaning self.new) security.number day.number sheet result }
        ensures greatest { IfOk result (λ e. Greatest ((rows_table any_number self.old.securities).sheet security.number) whole_year day.number e.number) }
        ensures after { RowsAfter any_number self.old.securities self.new.securities security.number day.number sheet result }
        ensures same { self.new.currencies ≡ self.old.currencies }
    {
        enter_step(&mut self.securities, security.number, day, sheet)
    }

    fn enter_currency(&mut self, day: Day, sheet: CurrencySheet) -> Result<Day, Fault>
        ensures entered { CurrencyEntered (steps_meaning self.old) (steps_meaning self.new) day.number sheet result }
        ensures greatest { IfOk result (λ e. Greatest ((rows_table own_number self.old.currencies).sheet sheet.currency.number) whole_year day.number e.number) }
        ensures after { RowsAfter own_number self.old.currencies self.new.currencies sheet.currency.number day.number sheet result }
        ensures same { self.new.securities ≡ self.old.securities }
    {
        enter_step(
            &mut self.currencies,
            u16::from(sheet.currency.number),
            day,
            sheet,
        )
    }
}

// The sheet of the latest entry up to `day`.
#[inline(never)]
fn step_sheet<T: Filed>(rows: &[Row<T>], number: u16, day: Day) -> Option<T>
    ensures value { result ≡ (carried (rows_table T.stands rows.now) whole_year).sheet number day.number }
    ensures latest { IsLatest ((rows_table T.stands rows.now).sheet number) whole_year day.number result }
{
    rows.iter()
        .filter(|row| row.is_filed(number) && row.day <= day.number)
        .map(|entry| entry.day)
        .max()
        .and_then(|latest| row_sheet(rows, number, latest))
}

// The day before the number's next entry after `day`, or the last of the year.
fn next_step<T: Filed>(rows: &[Row<T>], number: u16, day: Day) -> Day
    ensures value { result.number ≡ spread ((rows_table T.stands rows.now).sheet number) whole_year day.number }
{
    let next = rows
        .iter()
        .filter(|row| row.is_filed(number) && day.number < row.day)
        .map(|row| row.day)
        .min();
    Day {
        number: next.map_or(LAST_DAY, |next| LAST_DAY.min(next.saturating_sub(1))),
    }
}

// The entry reaches to the day before the number's next.
#[inline(never)]
fn enter_step<T: Filed>(rows: &mut [Row<T>], number: u16, day: Day, sheet: T) -> Result<Day, Fault>
    ensures entered { RowEntered T.stands rows.old rows.new number day.number sheet ((carried (rows_table T.stands rows.old) whole_year).reach number day.number sheet) result }
    ensures greatest { IfOk result (λ e. Greatest ((rows_table T.stands rows.old).sheet number) whole_year day.number e.number) }
{
    enter_row(rows, number, day, sheet)?;
    Ok(next_step(rows, number, day))
}
