// Entries of sheets from raw numbers: the sheet is made first, then it is entered. The two differ in what a sheet holds.
ghost use Rattle.reference.specs.Meaning.{SecurityFiled, CurrencyFiled};

use crate::raw;
use crate::source::Source;
use sheets::fault::Fault;
use sheets::make;
use sheets::units::Day;

pub fn file_security<S: Source>(
    source: &mut S,
    security: u16,
    day: u16,
    price: u64,
    currency: u8,
    class: u8,
) -> Result<Day, Fault>
    ensures filed { SecurityFiled (S.meaning source.old) (S.meaning source.new) security day price currency class result }
{
    let sheet = make::security_sheet(price, currency, class)?;
    raw::enter_security(source, security, day, sheet)
}

pub fn file_currency<S: Source>(
    source: &mut S,
    currency: u8,
    day: u16,
    rate: u64,
    value: u64,
) -> Result<Day, Fault>
    ensures filed { CurrencyFiled (S.meaning source.old) (S.meaning source.new) currency day rate value result }
{
    let sheet = make::currency_sheet(currency, rate, value)?;
    raw::enter_currency(source, day, sheet)
}
