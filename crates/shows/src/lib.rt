// How days, prices, money, rates, euro values, currencies and refusals are printed.
#![tactic(auto)]

use sheets::fault::{Fault, Rule};
use std::fmt;
use std::fmt::InlineText;

// The number of a day, as MM-DD.
#[derive(Clone, Copy, Debug, PartialEq, Eq)]
pub struct Day(pub u64);

// A number in units of its last decimal, of which it has PLACES, from 1 to 30: more do not fit in what is printed.
#[derive(Clone, Copy, Debug, PartialEq, Eq)]
pub struct Decimal<const PLACES: u32> {
    pub units: u64,
}

// Ten-thousandths.
pub type Price = Decimal<4>;

// Hundredths.
pub type Money = Decimal<2>;

// Hundred-millionths.
pub type Rate = Decimal<8>;

// Millionths of a euro.
pub type Value = Decimal<6>;

// EUR, DKK or the currency's number.
#[derive(Clone, Copy, Debug, PartialEq, Eq)]
pub struct Currency(pub u64);

// A refusal: its number, its layer and its place, and after a `#` what that means.
#[derive(Clone, Copy, Debug, PartialEq, Eq)]
pub struct Refusal(pub Fault);

// `pad` keeps to the width of `{:>12}`, which `write!` would not.
impl fmt::Display for Day {
    fn fmt<W: fmt::Write>(&self, f: &mut fmt::Formatter<W>) -> fmt::Result {
        let month = self.0 / 31 + 1;
        let day = self.0 % 31 + 1;
        f.pad(InlineText::<32>::of(format_args!("{month:02}-{day:02}")).as_str())
    }
}

impl<const PLACES: u32> fmt::Display for Decimal<PLACES> {
    fn fmt<W: fmt::Write>(&self, f: &mut fmt::Formatter<W>) -> fmt::Result {
        // Where one is more than 64 bits can hold, the number is below it.
        let (whole, part) = match 10u64.checked_pow(PLACES) {
            Some(one) => (self.units / one, self.units % one),
            None => (0, self.units),
        };
        let places = PLACES as usize;
        f.pad(InlineText::<32>::of(format_args!("{whole}.{part:0places$}")).as_str())
    }
}

impl fmt::Display for Currency {
    fn fmt<W: fmt::Write>(&self, f: &mut fmt::Formatter<W>) -> fmt::Result {
        match self.0 {
            0 => f.pad("EUR"),
            1 => f.pad("DKK"),
            number => f.pad(InlineText::<32>::of(format_args!("{number}")).as_str()),
        }
    }
}

// What the rule means, at the place where it was broken.
fn meaning<W: fmt::Write>(f: &mut fmt::Formatter<W>, fault: Fault) -> fmt::Result {
    let (first, second) = fault.place;
    let from = Day(first);
    let day = Day(second);
    match fault.rule {
        Rule::ValueOutside => f.write_str(
            "a price is 0.0001 to 100000.0000; a euro value is up to 10.000000, the euro's 1.000000, the krone's at least 0.010000, any other's at least 0.000001",
        ),
        Rule::NoSuchClass => write!(f, "no class {first}: classes are 1 to 6"),
        Rule::NoSuchCurrency => write!(f, "no currency {first}: currencies are 0 to 15"),
        Rule::RateTooHigh => {
            let rate = Rate { units: first };
            write!(f, "a rate of {rate}: the highest is 0.00100000")
        }
        Rule::NoSuchSecurity => write!(f, "no security {first}: securities are 1 to 9999"),
        Rule::NoSuchDay => write!(f, "no day {from}: the year ends on 12-31"),
        Rule::NotTaken => write!(f, "no room in the source for {first} on {day}"),
        Rule::NoSuchParty => write!(
            f,
            "instruction {first}: an instruction is not 0, and a party is 1000 to 9999"
        ),
        Rule::FieldsUnfit => write!(
            f,
            "type {first}: types are 1 to 4, a quantity is at most 1000000000, cash at most 1000000000.00, and the fields fit the type"
        ),
        Rule::ReasonsUnlawful => write!(
            f,
            "reasons {first} and {second} do not go together in this type"
        ),
        Rule::NoBusinessDay => write!(f, "{day} is not a business day"),
        Rule::NoUsedDay => write!(
            f,
            "no used day from {from} to {day}, and a late match needs one"
        ),
        Rule::SecurityMissing => write!(
            f,
            "no sheet of security {first} on {day}: enter one first"
        ),
        Rule::CurrencyMissing => {
            let currency = Currency(first);
            write!(
                f,
                "no sheet of currency {currency} on {day}: enter one first"
            )
        }
        Rule::ValueTooLarge => write!(
            f,
            "quantity times price of security {first} on {day} is above 1000000000.0000"
        ),
    }
}

impl fmt::Display for Refusal {
    fn fmt<W: fmt::Write>(&self, f: &mut fmt::Formatter<W>) -> fmt::Result {
        let Refusal(fault) = *self;
        let number = fault.number();
        let layer = fault.layer_number();
        let (first, second) = fault.place;
        write!(f, "refused {number} {layer} {first} {second} # ")?;
        meaning(f, fault)
    }
}
