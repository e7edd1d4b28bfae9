// Works through figures that are known by hand, and prints each.
#![tactic(auto)]

use calculation::charge::{Charge, Charges};
use calculation::charges::charges;
use carry::layer::Carry;
use plain_rows::plain::PlainRows;
use plain_rows::rows::Row;
use reference::entry::{file_currency, file_security};
use reference::raw;
use reference::source::Source;
use reports::calendar::Calendar;
use reports::open::{closed_year, open_days};
use reports::report::{Cause, Report};
use sheets::fault::Fault;
use shows::Refusal;
use std::io;
use steps::entries::Steps;

const EURO: u8 = 0;

const LIQUID: u8 = 1;

fn entered<S: Source>(rt: &HostRuntime, source: &mut S, day: u16, price: u64) -> io::Result<()> {
    let first = shows::Day(u64::from(day));
    let shown = shows::Price { units: price };
    match file_security(source, 17, day, price, EURO, LIQUID) {
        Ok(last) => {
            let last = shows::Day(u64::from(last.number));
            println!(rt; "{first} entered at {shown}: reaches {last}")
        }
        Err(fault) => println!(rt; "{first} entered at {shown}: {}", Refusal(fault)),
    }
}

fn asked<S: Source>(rt: &HostRuntime, source: &S, day: u16) -> io::Result<()> {
    let shown = shows::Day(u64::from(day));
    match raw::security(source, 17, day) {
        Some(sheet) => {
            let price = shows::Price {
                units: u64::from(sheet.price),
            };
            println!(rt; "{shown} answers {price}")
        }
        None => println!(rt; "{shown} answers none"),
    }
}

// A plain entry on the days 10 and 13 is carried over two days.
fn carried(rt: &HostRuntime) -> io::Result<()> {
    println!(rt; "carry with reach 2, days 10 and 13 entered")?;
    let mut securities = [Row::unused(); 4];
    let mut currencies = [Row::unused(); 1];
    let rows = PlainRows::new(&mut securities, &mut currencies);
    let mut source = Carry::over(rows, 2);
    entered(rt, &mut source, 10, 80_000)?;
    entered(rt, &mut source, 13, 90_000)?;
    asked(rt, &source, 12)?;
    asked(rt, &source, 13)?;
    asked(rt, &source, 16)?;
    entered(rt, &mut source, 10, 85_000)?;
    asked(rt, &source, 12)
}

// As in `pugraide`: one for both would be public, and nothing can be promised of what it prints.
fn charged(rt: &HostRuntime, charge: Charge) -> io::Result<()> {
    let failing = charge.failing;
    let other = charge.other;
    let currency = shows::Currency(u64::from(charge.currency));
    let amount = shows::Money {
        units: charge.amount,
    };
    print!(rt; " charge {failing} to {other} {currency} {amount}")
}

fn quoted(rt: &HostRuntime, answer: Result<Charges, Fault>) -> io::Result<()> {
    match answer {
        Ok(Charges::One(charge)) => charged(rt, charge)?,
        Ok(Charges::Two(first, second)) => {
            charged(rt, first)?;
            print!(rt; " and")?;
            charged(rt, second)?;
        }
        Err(fault) => print!(rt; " {}", Refusal(fault))?,
    }
    println!(rt)
}

fn all_year() -> Result<Calendar, Fault> {
    let mut calendar = closed_year();
    open_days(&mut calendar, 0, 371)?;
    Ok(calendar)
}

// Raw numbers, as a report's. From party 1001 to party 2002: security 17 in types 1 to 3, cash of 25000.00 euro in types 1, 3 and 4.
fn reported(kind: u8, quantity: u64, cause: Cause) -> Report {
    Report {
        instruction: 900_001,
        kind,
        deliverer: 1001,
        receiver: 2002,
        security: if kind == 4 { 0 } else { 17 },
        quantity: if kind == 4 { 0 } else { quantity },
        cash: if kind == 2 { 0 } else { 2_500_000 },
        currency: EURO,
        cause,
    }
}

// Prices of 8, 9 and 12 euro on the days 40, 41 and 42.
fn rising() -> Result<Steps, Fault> {
    let mut source = Steps::new();
    file_security(&mut source, 17, 40, 80_000, EURO, LIQUID)?;
    file_security(&mut source, 17, 41, 90_000, EURO, LIQUID)?;
    file_security(&mut source, 17, 42, 120_000, EURO, LIQUID)?;
    Ok(source)
}

fn late_charges(matched: u16, after: bool) -> Result<Charges, Fault> {
    let cause = Cause::Late {
        intended: 40,
        matched,
        after,
        deliverer: 200,
        receiver: 100,
    };
    charges(
        &rising()?,
        &all_year()?,
        &[false; 90],
        reported(1, 5_000, cause),
    )
}

fn late(rt: &HostRuntime, matched: u16, after: bool) -> io::Result<()> {
    let day = shows::Day(u64::from(matched));
    let side = if after { "after" } else { "before" };
    print!(rt; "02-10 matched {day} {side}:")?;
    quoted(rt, late_charges(matched, after))
}

fn late_matches(rt: &HostRuntime) -> io::Result<()> {
    println!(rt; "late matches of 5000 at 8, 9 and 12 euro, class 1")?;
    late(rt, 41, false)?;
    late(rt, 42, false)?;
    late(rt, 40, true)?;
    late(rt, 42, true)
}

// A price of 25 euro and a cash rate of 0.00006000.
fn steady() -> Result<Steps, Fault> {
    let mut source = Steps::new();
    file_security(&mut source, 17, 40, 250_000, EURO, LIQUID)?;
    file_currency(&mut source, EURO, 40, 6_000, 1_000_000)?;
    Ok(source)
}

fn fail_charges(kind: u8, deliverer: u8, receiver: u8) -> Result<Charges, Fault> {
    let cause = Cause::Fail {
        day: 40,
        deliverer,
        receiver,
    };
    charges(
        &steady()?,
        &all_year()?,
        &[false; 90],
        reported(kind, 1_000, cause),
    )
}

fn pair(rt: &HostRuntime, kind: u8, deliverer: u8, receiver: u8) -> io::Result<()> {
    print!(rt; "type {kind} reasons {deliverer} {receiver}:")?;
    quoted(rt, fail_charges(kind, deliverer, receiver))
}

fn pairs(rt: &HostRuntime, kind: u8) -> io::Result<()> {
    println!(rt; "pairs of reasons of type {kind}")?;
    for deliverer in 1..7 {
        for receiver in 1..7 {
            pair(rt, kind, deliverer, receiver)?;
        }
    }
    Ok(())
}

fn main(rt: HostRuntime) -> io::Result<()> {
    carried(&rt)?;
    late_matches(&rt)?;
    for kind in 1..5 {
        pairs(&rt, kind)?;
    }
    Ok(())
}
