// The calls of a journal, read from what follows their first word.
ghost use Rattle.lines.specs.Grammar.{Reads};
ghost use Rattle.lines.specs.Calls as calls;

use crate::choice::{Happened, Subject, Verb, happened_of, side_of, subject_of};
use crate::expected::{Expected, Keyword};
use crate::said::{Call, Event, Quote, Trade};
use crate::{field, keyed};
use words::scan::Words;

fn enter_security(words: &mut Words<'_>) -> Result<Call, Expected>
    ensures cases { Reads calls.enter_security words.old result words.new }
{
    let security = field::number(words, Expected::Security)?;
    let day = keyed::day(words, Keyword::Day)?;
    let price = keyed::decimal(words, Keyword::Price, 4, Expected::Price)?;
    let currency = keyed::currency(words)?;
    let class = keyed::number(words, Keyword::Class, Expected::Class)?;
    Ok(Call::EnterSecurity {
        security,
        day,
        price,
        currency,
        class,
    })
}

fn enter_currency(words: &mut Words<'_>) -> Result<Call, Expected>
    ensures cases { Reads calls.enter_currency words.old result words.new }
{
    let currency = field::currency(words)?;
    let day = keyed::day(words, Keyword::Day)?;
    let rate = keyed::decimal(words, Keyword::Rate, 8, Expected::Rate)?;
    let value = keyed::decimal(words, Keyword::Value, 6, Expected::Value)?;
    Ok(Call::EnterCurrency {
        currency,
        day,
        rate,
        value,
    })
}

fn ask_security(words: &mut Words<'_>) -> Result<Call, Expected>
    ensures cases { Reads calls.ask_security words.old result words.new }
{
    let security = field::number(words, Expected::Security)?;
    let day = keyed::day(words, Keyword::Day)?;
    Ok(Call::AskSecurity { security, day })
}

fn ask_currency(words: &mut Words<'_>) -> Result<Call, Expected>
    ensures cases { Reads calls.ask_currency words.old result words.new }
{
    let currency = field::currency(words)?;
    let day = keyed::day(words, Keyword::Day)?;
    Ok(Call::AskCurrency { currency, day })
}

// A match: each subject is asked for by words of its own.
fn sheet(words: &mut Words<'_>) -> Result<Call, Expected>
    ensures cases { Reads calls.sheet words.old result words.new }
{
    match field::word(words, Expected::Subject, subject_of)? {
        Subject::Security => ask_security(words),
        Subject::Currency => ask_currency(words),
    }
}

// The parts of a trade each have their own words: one function for all would take every word as a parameter.
fn parties(words: &mut Words<'_>) -> Result<(u16, u16), Expected>
    ensures cases { Reads calls.parties words.old result words.new }
{
    let deliverer = keyed::number(words, Keyword::From, Expected::Party)?;
    let receiver = keyed::number(words, Keyword::To, Expected::Party)?;
    Ok((deliverer, receiver))
}

fn goods(words: &mut Words<'_>) -> Result<(u16, u64), Expected>
    ensures cases { Reads calls.goods words.old result words.new }
{
    let security = keyed::number(words, Keyword::Security, Expected::Security)?;
    let quantity = keyed::number(words, Keyword::Quantity, Expected::Quantity)?;
    Ok((security, quantity))
}

fn money(words: &mut Words<'_>) -> Result<(u64, u8), Expected>
    ensures cases { Reads calls.money words.old result words.new }
{
    let cash = keyed::decimal(words, Keyword::Cash, 2, Expected::Cash)?;
    let currency = keyed::currency(words)?;
    Ok((cash, currency))
}

fn trade(words: &mut Words<'_>) -> Result<Trade, Expected>
    ensures cases { Reads calls.trade words.old result words.new }
{
    let instruction = field::number(words, Expected::Instruction)?;
    let kind = keyed::number(words, Keyword::Type, Expected::Type)?;
    let (deliverer, receiver) = parties(words)?;
    let (security, quantity) = goods(words)?;
    let (cash, currency) = money(words)?;
    Ok(Trade {
        instruction,
        kind,
        deliverer,
        receiver,
        security,
        quantity,
        cash,
        currency,
    })
}

fn fail(words: &mut Words<'_>) -> Result<Event, Expected>
    ensures cases { Reads calls.fail words.old result words.new }
{
    let day = keyed::day(words, Keyword::Day)?;
    let reasons = keyed::pair(words, Keyword::Reasons, Expected::Reason)?;
    Ok(Event::Fail { day, reasons })
}

fn late(words: &mut Words<'_>) -> Result<Event, Expected>
    ensures cases { Reads calls.late words.old result words.new }
{
    let intended = keyed::day(words, Keyword::Intended)?;
    let matched = keyed::day(words, Keyword::Matched)?;
    let after = field::word(words, Expected::Side, side_of)?;
    let times = keyed::pair(words, Keyword::Times, Expected::Time)?;
    Ok(Event::Late {
        intended,
        matched,
        after,
        times,
    })
}

// A match, here and in `call`: the cases are closed, and each reads words of its own.
fn event(words: &mut Words<'_>, happened: Happened) -> Result<Event, Expected>
    ensures cases { Reads (calls.event happened) words.old result words.new }
{
    match happened {
        Happened::Fail => fail(words),
        Happened::Late => late(words),
    }
}

fn quote(words: &mut Words<'_>) -> Result<Call, Expected>
    ensures cases { Reads calls.quote words.old result words.new }
{
    let happened = field::word(words, Expected::Event, happened_of)?;
    let trade = trade(words)?;
    let event = event(words, happened)?;
    Ok(Call::Quote(Quote { trade, event }))
}

pub(crate) fn call(words: &mut Words<'_>, verb: Verb) -> Result<Call, Expected>
    ensures cases { Reads (calls.call verb) words.old result words.new }
{
    match verb {
        Verb::Security => enter_security(words),
        Verb::Currency => enter_currency(words),
        Verb::Sheet => sheet(words),
        Verb::Quote => quote(words),
    }
}
