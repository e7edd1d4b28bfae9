// A source that answers a day without a sheet of a security by an earlier day's, out of the source below.
ghost use Rattle.std.specs.Prelude.{◌≡◌, ◌-◌, ◌<◌, ◌≤◌, min, IfOk};
ghost use Rattle.sheets.specs.Limits.{last_day};
ghost use Rattle.reference.specs.Meaning.{SecurityEntered, CurrencyEntered};
ghost use Rattle.carry.specs.Laws.{Greatest, IsLatest};
ghost use Rattle.carry.specs.Carried.{spread, greatest_reach};

use reference::source::Source;
use sheets::fault::Fault;
use sheets::limits::LAST_DAY;
use sheets::sheet::{CurrencySheet, SecuritySheet};
use sheets::units::{Currency, Day, Security};

const GREATEST_REACH: u8 = 10;

#[derive(Drop)]
pub struct Carry<S> {
    below: S,
    reach: u8,
    ghost limit: { reach ≤ greatest_reach },
}

impl<S> Carry<S> {
    // A reach above ten days counts as ten.
    pub fn over(below: S, reach: u8) -> Carry<S>
        ensures made { (result.below ≡ below) × (result.reach ≡ min reach greatest_reach) }
    {
        Carry {
            below,
            reach: reach.min(GREATEST_REACH),
        }
    }
}

// The day so many days before, or day 0.
fn days_before(day: Day, days: u8) -> Day
    ensures value { result.number ≡ day.number - days }
{
    Day {
        number: day.number.saturating_sub(u16::from(days)),
    }
}

impl<S: Source> Carry<S> {
    // The last day, up to the reach after `day` and in the year, before the security's next sheet.
    fn last_held(&self, security: Security, day: Day) -> Day
        ensures value { result.number ≡ spread ((S.meaning self.now.below).securities.sheet security.number) self.now.reach day.number }
    {
        let farthest = LAST_DAY.min(day.number + u16::from(self.reach));
        let before_a_sheet = |d: &u16|
            requires { d.now < last_day }
        {
            let next = Day { number: *d + 1 };
            self.below.security(security, next).is_some()
        };
        let last = (day.number..farthest)
            .find(before_a_sheet)
            .unwrap_or(farthest);
        Day { number: last }
    }
}

// A method for each kind of sheet, as the interface has.
impl<S: Source> Source for Carry<S> {
    ghost use Rattle.carry.specs.Layer.{carry_meaning, EnteredBelow};

    ghost meaning = { carry_meaning S.meaning };

    ghost own = { λ s. S.own s.below };

    fn security(&self, security: Security, day: Day) -> Option<SecuritySheet>
        ensures value { result ≡ (carry_meaning S.meaning self.now).securities.sheet security.number day.number }
        ensures latest { IsLatest ((S.meaning self.now.below).securities.sheet security.number) self.now.reach day.number result }
    {
        (0..=self.reach).find_map(|days| self.below.security(security, days_before(day, days)))
    }

    fn currency(&self, currency: Currency, day: Day) -> Option<CurrencySheet> {
        self.below.currency(currency, day)
    }

    fn enter_security(
        &mut self,
        security: Security,
        day: Day,
        sheet: SecuritySheet,
    ) -> Result<Day, Fault>
        ensures entered { SecurityEntered (carry_meaning S.meaning self.old) (carry_meaning S.meaning self.new) security.number day.number sheet result }
        ensures greatest { IfOk result (λ e. Greatest ((S.meaning self.old.below).securities.sheet security.number) self.old.reach ((S.meaning self.old.below).securities.reach security.number day.number sheet) e.number) }
        ensures after { EnteredBelow (S.meaning self.old.below) (S.meaning self.new.below) security.number day.number sheet result }
        ensures same { self.new.reach ≡ self.old.reach }
    {
        let last = self.below.enter_security(security, day, sheet)?;
        Ok(self.last_held(security, last))
    }

    fn enter_currency(&mut self, day: Day, sheet: CurrencySheet) -> Result<Day, Fault>
        ensures entered { CurrencyEntered (carry_meaning S.meaning self.old) (carry_meaning S.meaning self.new) day.number sheet result }
        ensures after { CurrencyEntered (S.meaning self.old.below) (S.meaning self.new.below) day.number sheet result }
        ensures same { self.new.reach ≡ self.old.reach }
    {
        self.below.enter_currency(day, sheet)
    }
}
