// Reads a journal, carries out its lines one after another, and prints each answer.
#![tactic(auto)]

mod help;

use crate::help::HELP;
use calculation::charge::{Charge, Charges};
use calculation::charges::charges;
use carry::layer::Carry;
use journal::read::journal_of;
use journal::said::{Journal, Numbered};
use lines::said::{Base, Call, Event, Quote, Span};
use plain_rows::plain::PlainRows;
use plain_rows::rows::Row;
use reference::entry::{file_currency, file_security};
use reference::raw;
use reference::source::Source;
use reports::calendar::Calendar;
use reports::open::{closed_year, open_days};
use reports::report::{Cause, Report};
use sheets::fault::Fault;
use sheets::sheet::{CurrencySheet, SecuritySheet};
use sheets::units::Day;
use shows::Refusal;
use std::io::{BufWriter, Read, Write};
use std::process::ExitCode;
use std::{env, fmt, fs, io};
use steps::entries::Steps;

// The program ends with status 1; what is wrong is on the standard error.
#[derive(Clone, Copy)]
struct Stop;

// What a report is judged by, besides the source. The marks of the opted are a fixed number.
#[derive(Drop)]
struct Marks {
    calendar: Calendar,
    opted: [bool; 90],
}

// Where the reply to the call on a line is written; each kind of sheet has a reply of its own.
#[derive(Drop)]
struct Reply<'a, W> {
    out: &'a mut W,
    line: usize,
}

impl<W: Write> Reply<'_, W> {
    fn none(self) -> io::Result<()> {
        let Reply { out, line } = self;
        writeln!(out, "{line} none")
    }

    fn refused(self, fault: Fault) -> io::Result<()> {
        let Reply { out, line } = self;
        let refusal = Refusal(fault);
        writeln!(out, "{line} {refusal}")
    }

    fn reaches(self, answer: Result<Day, Fault>) -> io::Result<()> {
        let day = match answer {
            Ok(day) => shows::Day(u64::from(day.number)),
            Err(fault) => return self.refused(fault),
        };
        let Reply { out, line } = self;
        writeln!(out, "{line} reaches {day}")
    }

    fn security(self, answer: Option<SecuritySheet>) -> io::Result<()> {
        let Some(sheet) = answer else {
            return self.none();
        };
        let Reply { out, line } = self;
        let price = shows::Price {
            units: u64::from(sheet.price),
        };
        let currency = shows::Currency(u64::from(sheet.currency.number));
        let class = sheet.class.number();
        writeln!(out, "{line} sheet {price} {currency} {class}")
    }

    fn currency(self, answer: Option<CurrencySheet>) -> io::Result<()> {
        let Some(sheet) = answer else {
            return self.none();
        };
        let Reply { out, line } = self;
        let rate = shows::Rate {
            units: u64::from(sheet.rate.number),
        };
        let value = shows::Value {
            units: u64::from(sheet.value),
        };
        writeln!(out, "{line} sheet {rate} {value}")
    }

    fn quoted(self, answer: Result<Charges, Fault>) -> io::Result<()> {
        let charges = match answer {
            Ok(charges) => charges,
            Err(fault) => return self.refused(fault),
        };
        let Reply { out, line } = self;
        match charges {
            Charges::One(charge) => charged(out, line, charge),
            Charges::Two(first, second) => {
                charged(out, line, first)?;
                charged(out, line, second)
            }
        }
    }
}

fn charged<W: Write>(out: &mut W, line: usize, charge: Charge) -> io::Result<()> {
    let failing = charge.failing;
    let other = charge.other;
    let currency = shows::Currency(u64::from(charge.currency));
    let amount = shows::Money {
        units: charge.amount,
    };
    writeln!(
        out,
        "{line} charge {failing} to {other} {currency} {amount}"
    )
}

fn cause_of(event: Event) -> Cause {
    match event {
        Event::Fail { day, reasons } => Cause::Fail {
            day,
            deliverer: reasons.0,
            receiver: reasons.1,
        },
        Event::Late {
            intended,
            matched,
            after,
            times,
        } => Cause::Late {
            intended,
            matched,
            after,
            deliverer: times.0,
            receiver: times.1,
        },
    }
}

fn report_of(quote: Quote) -> Report {
    let trade = quote.trade;
    Report {
        instruction: trade.instruction,
        kind: trade.kind,
        deliverer: trade.deliverer,
        receiver: trade.receiver,
        security: trade.security,
        quantity: trade.quantity,
        cash: trade.cash,
        currency: trade.currency,
        cause: cause_of(quote.event),
    }
}

// Carries out one call, and writes its answer.
fn answer<S: Source, W: Write>(
    reply: Reply<'_, W>,
    source: &mut S,
    marks: &Marks,
    call: Call,
) -> io::Result<()> {
    match call {
        Call::EnterSecurity {
            security,
            day,
            price,
            currency,
            class,
        } => { reply.reaches(file_security(source, security, day, price, currency, class)) }
        Call::EnterCurrency {
            currency,
            day,
            rate,
            value,
        } => reply.reaches(file_currency(source, currency, day, rate, value)),
        Call::AskSecurity { security, day } => reply.security(raw::security(source, security, day)),
        Call::AskCurrency { currency, day } => reply.currency(raw::currency(source, currency, day)),
        Call::Quote(quote) => reply.quoted(charges(
            source,
            &marks.calendar,
            &marks.opted,
            report_of(quote),
        )),
    }
}

// Opens the business days; a span past the year is refused, and the others are opened.
fn open_year<W: Write>(out: &mut W, spans: &[Numbered<Span>]) -> io::Result<Calendar> {
    let mut calendar = closed_year();
    for &Numbered { line, said } in spans {
        if let Err(fault) = open_days(&mut calendar, said.first, said.last) {
            Reply { out, line }.refused(fault)?;
        }
    }
    Ok(calendar)
}

// A journal, and the runtime that it is carried out by.
#[derive(Clone, Copy)]
struct Session<'a> {
    rt: &'a HostRuntime,
    journal: &'a Journal,
}

impl Session<'_> {
    fn carry_out<S: Source + Drop>(self, mut source: S) -> io::Result<()> {
        let Session { rt, journal } = self;
        let mut out = BufWriter::new(rt.alloc(), rt.stdout())?;
        let calendar = open_year(&mut out, journal.business.as_slice())?;
        let opted = journal.opted;
        let marks = Marks { calendar, opted };
        for &Numbered { line, said } in journal.calls.as_slice() {
            let out = &mut out;
            answer(Reply { out, line }, &mut source, &marks, said)?;
        }
        out.flush()
    }

    // Over the layer, if the journal sets one.
    fn layered<S: Source + Drop>(self, below: S, reach: Option<u8>) -> io::Result<()> {
        match reach {
            Some(reach) => self.carry_out(Carry::over(below, reach)),
            None => self.carry_out(below),
        }
    }

    fn over_rows(self, securities: usize, currencies: usize, reach: Option<u8>) -> io::Result<()> {
        let heap = self.rt.alloc();
        let mut securities = vec![in heap; Row::unused(); securities]?;
        let mut currencies = vec![in heap; Row::unused(); currencies]?;
        let below = PlainRows::new(securities.as_mut_slice(), currencies.as_mut_slice());
        self.layered(below, reach)
    }

    // A journal without a call needs no source; steps then stand for it.
    fn with_source(self) -> io::Result<()> {
        let Some(source) = self.journal.source else {
            return self.carry_out(Steps::new());
        };
        match source.base {
            Base::Steps => self.layered(Steps::new(), source.reach),
            Base::Plain {
                securities,
                currencies,
            } => self.over_rows(securities, currencies, source.reach),
        }
    }
}

// Says why the program stops.
fn told<E: fmt::Display + Drop>(rt: &HostRuntime, why: E) -> Stop {
    let _ = eprintln!(rt; "pugraide: {why}");
    Stop
}

fn run(rt: &HostRuntime, text: &[u8]) -> Result<(), Stop> {
    let journal = journal_of(rt.alloc(), text).map_err(|why| told(rt, why))?;
    let session = Session {
        rt,
        journal: &journal,
    };
    session.with_source().map_err(|why| told(rt, why))
}

// The journal's text: of the file that is named, or of the standard input.
fn text_of(rt: &HostRuntime, path: Option<&str>) -> io::Result<Vec<u8>> {
    match path {
        Some(path) => fs::read(rt, path),
        None => {
            let mut text = Vec::new(rt.alloc());
            rt.stdin().read_to_end(&mut text)?;
            Ok(text)
        }
    }
}

fn first_word(rt: &HostRuntime) -> io::Result<Option<String>> {
    let mut args = env::args(rt)?;
    let _ = args.next();
    Ok(args.next())
}

fn start(rt: &HostRuntime) -> Result<(), Stop> {
    let word = first_word(rt).map_err(|why| told(rt, why))?;
    let path = word.as_deref();
    if path == Some("--help") {
        let _ = print!(rt; "{HELP}");
        return Ok(());
    }
    let name = path.unwrap_or("standard input");
    let text = text_of(rt, path).map_err(|why| told(rt, format_args!("{name}: {why}")))?;
    run(rt, text.as_slice())
}

// A returned error would be printed once more, so the status alone is returned.
fn main(rt: HostRuntime) -> ExitCode {
    match start(&rt) {
        Ok(()) => ExitCode::SUCCESS,
        Err(Stop) => ExitCode::FAILURE,
    }
}
