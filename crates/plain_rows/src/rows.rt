// Rows of one kind of sheet, written once for both kinds. Number and day are two parameters, as in the tables that contracts name.
// The two searches of rows are not inlined: where they were, some took half as long again.
ghost use Rattle.std.specs.Prelude.{◌≡◌, ℕ, Bool, position};
ghost use Rattle.plain_rows.specs.Rows.{any_number, own_number, unused_row, filed, sits, free, entry_row, entry_place, rows_table, RowEntered};

use sheets::fault::{Fault, Layer, Rule};
use sheets::sheet::{CurrencySheet, SecuritySheet};
use sheets::units::Day;

// A row is unused if it has no sheet; its number and day are then never read.
#[derive(Clone, Copy, Debug, PartialEq, Eq)]
pub struct Row<T> {
    pub number: u16,
    pub day: u16,
    pub sheet: Option<T>,
}

impl<T> Row<T> {
    pub fn unused() -> Row<T>
        ensures value { result ≡ unused_row }
    {
        Row {
            number: 0,
            day: 0,
            sheet: None,
        }
    }

    fn is_unused(&self) -> bool
        ensures value { result ≡ free self.now }
    {
        self.sheet.is_none()
    }
}

// Under which numbers a sheet may stand: a row that says otherwise is no entry.
pub trait Filed: Copy {
    ghost stands: { ℕ → Self → Bool };

    fn stands_under(self, number: u16) -> bool
        ensures value { result ≡ stands number self };
}

impl Filed for SecuritySheet {
    ghost stands = { any_number };

    fn stands_under(self, _number: u16) -> bool {
        true
    }
}

impl Filed for CurrencySheet {
    ghost stands = { own_number };

    fn stands_under(self, number: u16) -> bool {
        u16::from(self.currency.number) == number
    }
}

impl<T: Filed> Row<T> {
    // An entry reaches its own day only.
    fn entry(number: u16, day: u16, sheet: T) -> Row<T>
        ensures value { result ≡ entry_row number day sheet }
    {
        Row {
            number,
            day,
            sheet: Some(sheet),
        }
    }

    // The row is an entry of the number.
    pub fn is_filed(&self, number: u16) -> bool
        ensures value { result ≡ filed T.stands number self.now }
    {
        self.number == number && self.sheet.is_some_and(|sheet| sheet.stands_under(number))
    }

    fn is_at(&self, number: u16, day: u16) -> bool
        ensures value { result ≡ sits T.stands number day self.now }
    {
        self.day == day && self.is_filed(number)
    }
}

// The first unused row.
fn free_place<T: Filed>(rows: &[Row<T>]) -> Option<usize>
    ensures value { result ≡ position free rows.now }
{
    rows.iter().position(|row| row.is_unused())
}

// Where an entry of that number and day goes: its row, or the first unused one.
#[inline(never)]
fn entry_place<T: Filed>(rows: &[Row<T>], number: u16, day: u16) -> Option<usize>
    ensures value { result ≡ entry_place T.stands number day rows.now }
{
    rows.iter()
        .position(|row| row.is_at(number, day))
        .or_else(|| free_place(rows))
}

// The sheet of that number and day.
#[inline(never)]
pub fn row_sheet<T: Filed>(rows: &[Row<T>], number: u16, day: u16) -> Option<T>
    ensures value { result ≡ (rows_table T.stands rows.now).sheet number day }
{
    rows.iter()
        .find(|row| row.is_at(number, day))
        .and_then(|row| row.sheet)
}

// Overwrites the row of its number and day, or takes the first unused row; an entry in rows reaches its own day only.
pub fn enter_row<T: Filed>(
    rows: &mut [Row<T>],
    number: u16,
    day: Day,
    sheet: T,
) -> Result<Day, Fault>
    ensures entered { RowEntered T.stands rows.old rows.new number day.number sheet day.number result }
{
    let Some(place) = entry_place(rows, number, day.number) else {
        return Err(Layer::Source.refuses(Rule::NotTaken, u64::from(number), u64::from(day.number)));
    };
    rows[place] = Row::entry(number, day.number, sheet);
    Ok(day)
}
