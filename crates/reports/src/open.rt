// Opening days of a calendar for business.
ghost use Rattle.std.specs.Prelude.{◌≡◌, false, replicate, Some, None, MatchResult};
ghost use Rattle.reports.specs.Days.{Opened, opening_refusal};

use crate::calendar::Calendar;
use sheets::fault::{Fault, Layer};
use sheets::make;

// A calendar without a business day.
pub fn closed_year() -> Calendar
    ensures value { result.business ≡ replicate 372 false }
{
    Calendar {
        business: [false; 372],
    }
}

// Makes business days of the days from the first to the last; if the last comes first, there are none.
pub fn open_days(calendar: &mut Calendar, first: u16, last: u16) -> Result<(), Fault>
    ensures after { MatchResult result (λ _. (opening_refusal first last ≡ None) × Opened calendar.old.business calendar.new.business first last) (λ f. (opening_refusal first last ≡ Some f) × (calendar.new.business ≡ calendar.old.business)) }
{
    let first = usize::from(make::day(Layer::Book, first)?.number);
    let last = usize::from(make::day(Layer::Book, last)?.number);
    if first <= last {
        calendar.business[first..=last].fill(true);
    }
    Ok(())
}
