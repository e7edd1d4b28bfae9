// The business days of a year, one mark for each day number: the book keeps a fixed number of marks. Nothing compares calendars.
ghost use Rattle.std.specs.Prelude.{◌≡◌, ◌<◌, not, length};
ghost use Rattle.reports.specs.Days.{is_business, days_between, days_of, last_or, is_empty};

use crate::report::Span;

#[derive(Clone, Copy)]
pub struct Calendar {
    pub business: [bool; 372],
    ghost whole: { length business ≡ 372 },
}

impl Calendar {
    // A number past the year is no business day.
    pub fn is_business(&self, day: u16) -> bool
        ensures value { result ≡ is_business self.now.business day }
    {
        self.business.get(usize::from(day)) == Some(&true)
    }

    // Whether there is a business day from `from` to before `end`.
    pub(crate) fn has_day(&self, from: u16, end: u16) -> bool
        ensures value { result ≡ not (is_empty (days_between self.now.business from end)) }
    {
        (from..end).any(|d| self.is_business(d))
    }

    // The last used day, or 0 if there is none: an Option would make a call fallible that promises not to be.
    pub fn last_day(&self, span: Span) -> u16
        ensures value { result ≡ last_or 0 (days_of self.now.business span) }
    {
        let is_open = |d: &u16|
            requires { d.now < 372 }
        { self.business[usize::from(*d)] };
        (span.from..span.end).rev().find(is_open).unwrap_or(0)
    }
}
