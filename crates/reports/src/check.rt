// The check of a report, before anything is read: it takes the raw numbers in, and hands on types.
ghost use Rattle.std.specs.Prelude.{◌≡◌, ◌≤◌, IfOk, if◌then◌else◌};
ghost use Rattle.sheets.specs.Refusals.{Answers, security_refusal};
ghost use Rattle.reports.specs.Days.{days_of};
ghost use Rattle.reports.specs.UsedDays.{UsedDays};
ghost use Rattle.reports.specs.WhoFails.{WhoFails};
ghost use Rattle.sheets.specs.Limits.{greatest_quantity};
ghost use Rattle.reports.specs.Kinds.{kind_number};
ghost use Rattle.reports.specs.Terms.{exchange_kind};
ghost use Rattle.reports.specs.Reports.{Fit, parties_fit, securities_fit, cash_fits, fields_fit, reasons_fit, failing_by_reasons, fail_refusal, late_refusal, cause_refusal, exchange_refusal, report_refusal, ExchangeOf, SpanOf, TradeOf};

use crate::calendar::Calendar;
use crate::reason::{Obstacle, Reason};
use crate::report::{Cash, Cause, Exchange, Failing, Kind, Report, Securities, Span, Trade};
use sheets::fault::{Fault, Layer, Rule};
use sheets::limits::{GREATEST_CASH, GREATEST_QUANTITY, LAST_SETTLEMENT_CURRENCY};
use sheets::make;
use sheets::units::{Currency, Party};

// The parties of an instruction that has a number, if both exist.
fn parties_of(report: Report) -> Option<(Party, Party)>
    ensures made { Fit (parties_fit report) result (λ p. (p.0.number ≡ report.deliverer) × (p.1.number ≡ report.receiver)) }
{
    if report.instruction == 0 {
        return None;
    }
    let deliverer = Party::try_from(report.deliverer).ok()?;
    let receiver = Party::try_from(report.receiver).ok()?;
    Some((deliverer, receiver))
}

// A match, here and below: each type has fields of its own.
fn securities_fit(kind: Kind, quantity: u64, security: u16) -> bool
    ensures value { result ≡ securities_fit (kind_number kind) quantity security }
{
    match kind {
        Kind::PaymentOnly => quantity == 0 && security == 0,
        _ => 1 <= quantity,
    }
}

fn cash_fits(kind: Kind, cash: u64, currency: u8) -> bool
    ensures value { result ≡ cash_fits (kind_number kind) cash currency }
{
    match kind {
        Kind::FreeOfPayment => cash == 0 && currency == 0,
        _ => 1 <= cash && currency <= LAST_SETTLEMENT_CURRENCY,
    }
}

// The kind, if the fields fit it; a security that a kind uses is judged apart.
fn kind_of(report: Report) -> Option<Kind>
    ensures made { Fit (fields_fit report) result (λ k. kind_number k ≡ report.kind) }
{
    let kind = Kind::try_from(report.kind).ok()?;
    let fit = report.quantity <= GREATEST_QUANTITY
        && report.cash <= GREATEST_CASH
        && securities_fit(kind, report.quantity, report.security)
        && cash_fits(kind, report.cash, report.currency);
    fit.then_some(kind)
}

// What is exchanged, or the first rule that the fields break.
fn exchange_of(report: Report) -> Result<Exchange, Fault>
    ensures made { Answers (exchange_refusal report) result (ExchangeOf report) }
{
    let kind = kind_of(report).ok_or_else(|| Layer::Book.refuses(
        Rule::FieldsUnfit,
        u64::from(report.kind),
        0,
    ))?;
    let cash = Cash {
        amount: report.cash,
        currency: Currency {
            number: report.currency,
        },
    };
    Ok(match kind {
        Kind::AgainstPayment => Exchange::AgainstPayment(securities_of(report)?, cash),
        Kind::FreeOfPayment => Exchange::FreeOfPayment(securities_of(report)?),
        Kind::WithPayment => Exchange::WithPayment(securities_of(report)?, cash),
        Kind::PaymentOnly => Exchange::PaymentOnly(cash),
    })
}

fn securities_of(report: Report) -> Result<Securities, Fault>
    requires { report.quantity ≤ greatest_quantity }
    ensures made { Answers (security_refusal Layer.Book report.security) result (λ s. (s.security.number ≡ report.security) × (s.quantity ≡ report.quantity)) }
{
    Ok(Securities {
        security: make::security(Layer::Book, report.security)?,
        quantity: report.quantity as u32,
    })
}

// Who fails by the reasons, if these are lawful: each side with a reason of its own.
fn failing_by_reasons(exchange: Exchange, deliverer: u8, receiver: u8) -> Option<Failing>
    ensures made { Fit (reasons_fit (kind_number (exchange_kind exchange)) deliverer receiver) result (λ f. f ≡ failing_by_reasons deliverer receiver) }
{
    let deliverer = Reason::try_from(deliverer).ok()?;
    let receiver = Reason::try_from(receiver).ok()?;
    // A receiver lacks something of its own only against payment.
    let may_lack = matches!(exchange, Exchange::AgainstPayment(..))
        || receiver != Reason::Own(Obstacle::Lack);
    if !deliverer.is_met(receiver) || !receiver.is_met(deliverer) || !may_lack {
        return None;
    }
    Some(match (deliverer, receiver) {
        (Reason::Own(_), Reason::Own(_)) => Failing::Both,
        (Reason::Own(_), Reason::Other(_)) => Failing::OnlyDeliverer,
        (Reason::Other(_), _) => Failing::OnlyReceiver,
    })
}

fn check_fail(
    calendar: &Calendar,
    exchange: Exchange,
    day: u16,
    deliverer: u8,
    receiver: u8,
) -> Result<Span, Fault>
    ensures made { Answers (fail_refusal calendar.now.business (kind_number (exchange_kind exchange)) day deliverer receiver) result (SpanOf calendar.now.business (Cause.Fail day deliverer receiver)) }
{
    let from = make::day(Layer::Book, day)?.number;
    let failing = failing_by_reasons(exchange, deliverer, receiver).ok_or_else(
        || Layer::Book.refuses(
            Rule::ReasonsUnlawful,
            u64::from(deliverer),
            u64::from(receiver),
        ),
    )?;
    if !calendar.is_business(day) {
        return Err(Layer::Book.refuses(Rule::NoBusinessDay, 0, u64::from(day)));
    }
    Ok(Span {
        from,
        end: from + 1,
        failing,
    })
}

fn check_late(
    calendar: &Calendar,
    intended: u16,
    matched: u16,
    after: bool,
    deliverer: u32,
    receiver: u32,
) -> Result<Span, Fault>
    ensures made { Answers (late_refusal calendar.now.business intended matched after) result (SpanOf calendar.now.business (Cause.Late intended matched after deliverer receiver)) }
{
    let from = make::day(Layer::Book, intended)?.number;
    let day = make::day(Layer::Book, matched)?;
    if !calendar.is_business(matched) {
        return Err(Layer::Book.refuses(Rule::NoBusinessDay, 0, u64::from(matched)));
    }
    let end = if after { day.number + 1 } else { day.number };
    if !calendar.has_day(from, end) {
        return Err(Layer::Book.refuses(Rule::NoUsedDay, u64::from(intended), u64::from(matched)));
    }
    Ok(Span {
        from,
        end,
        // At equal times the deliverer fails.
        failing: if deliverer < receiver {
            Failing::OnlyReceiver
        } else {
            Failing::OnlyDeliverer
        },
    })
}

fn check_cause(calendar: &Calendar, exchange: Exchange, cause: Cause) -> Result<Span, Fault>
    ensures made { Answers (cause_refusal calendar.now.business (kind_number (exchange_kind exchange)) cause) result (SpanOf calendar.now.business cause) }
{
    match cause {
        Cause::Fail {
            day,
            deliverer,
            receiver,
        } => check_fail(calendar, exchange, day, deliverer, receiver),
        Cause::Late {
            intended,
            matched,
            after,
            deliverer,
            receiver,
        } => check_late(calendar, intended, matched, after, deliverer, receiver),
    }
}

// The trade of a report, or the first rule that the report breaks.
pub fn check(calendar: &Calendar, report: Report) -> Result<Trade, Fault>
    ensures made { Answers (report_refusal calendar.now.business report) result (TradeOf calendar.now.business report) }
    ensures sides { IfOk result (λ t. WhoFails report.cause t.span.failing) }
    ensures used { IfOk result (λ t. UsedDays calendar.now.business report.cause (days_of calendar.now.business t.span)) }
{
    let (deliverer, receiver) = parties_of(report).ok_or_else(|| Layer::Book.refuses(
        Rule::NoSuchParty,
        u64::from(report.instruction),
        0,
    ))?;
    let exchange = exchange_of(report)?;
    let span = check_cause(calendar, exchange, report.cause)?;
    Ok(Trade {
        exchange,
        deliverer,
        receiver,
        span,
    })
}
