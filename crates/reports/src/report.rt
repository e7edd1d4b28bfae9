// A report as raw numbers, and the trade that it is once it has been checked.
ghost use Rattle.std.specs.Prelude.{◌≤◌};
ghost use Rattle.sheets.specs.Limits.{greatest_quantity, greatest_cash};

use sheets::units::{Currency, Outside, Party, Security};

// Why a penalty is due: the trade failed to settle on a day, or its two sides matched late. The numbers are raw, as a report's.
#[derive(Clone, Copy, Debug, PartialEq, Eq)]
pub enum Cause {
    Fail {
        day: u16,
        deliverer: u8,
        receiver: u8,
    },
    Late {
        intended: u16,
        matched: u16,
        after: bool,
        deliverer: u32,
        receiver: u32,
    },
}

// Raw numbers, since a report may hold any: the check refuses those that are no type, party or currency.
#[derive(Clone, Copy, Debug, PartialEq, Eq)]
pub struct Report {
    pub instruction: u32,
    pub kind: u8,
    pub deliverer: u16,
    pub receiver: u16,
    pub security: u16,
    pub quantity: u64,
    pub cash: u64,
    pub currency: u8,
    pub cause: Cause,
}

// Which trade it is: types 1 to 4.
#[derive(Clone, Copy, Debug, PartialEq, Eq)]
pub enum Kind {
    AgainstPayment,
    FreeOfPayment,
    WithPayment,
    PaymentOnly,
}

impl TryFrom<u8> for Kind {
    ghost use Rattle.reports.specs.Kinds.{IsKind};

    type Error = Outside;

    ghost try_from_gives = { IsKind };

    fn try_from(number: u8) -> Result<Kind, Outside> {
        match number {
            1 => Ok(Kind::AgainstPayment),
            2 => Ok(Kind::FreeOfPayment),
            3 => Ok(Kind::WithPayment),
            4 => Ok(Kind::PaymentOnly),
            _ => Err(Outside),
        }
    }
}

#[derive(Clone, Copy, Debug, PartialEq, Eq)]
pub enum Side {
    Deliverer,
    Receiver,
}

// Who fails; of both, the deliverer's penalty comes first.
#[derive(Clone, Copy, Debug, PartialEq, Eq)]
pub enum Failing {
    OnlyDeliverer,
    OnlyReceiver,
    Both,
}

// The used days are the business days from `from` to before `end`.
#[derive(Clone, Copy, Debug, PartialEq, Eq)]
pub struct Span {
    pub from: u16,
    pub end: u16,
    pub failing: Failing,
    ghost year: { end ≤ 372 },
}

// A quantity of a security.
#[derive(Clone, Copy, Debug, PartialEq, Eq)]
pub struct Securities {
    pub security: Security,
    pub quantity: u32,
    ghost counted: { quantity ≤ greatest_quantity },
}

// Cash in hundredths of a currency unit.
#[derive(Clone, Copy, Debug, PartialEq, Eq)]
pub struct Cash {
    pub amount: u64,
    pub currency: Currency,
    ghost paid: { amount ≤ greatest_cash },
}

// What is exchanged, by the kind of the trade.
#[derive(Clone, Copy, Debug, PartialEq, Eq)]
pub enum Exchange {
    AgainstPayment(Securities, Cash),
    FreeOfPayment(Securities),
    WithPayment(Securities, Cash),
    PaymentOnly(Cash),
}

// A report that has been checked.
#[derive(Clone, Copy, Debug, PartialEq, Eq)]
pub struct Trade {
    pub exchange: Exchange,
    pub deliverer: Party,
    pub receiver: Party,
    pub span: Span,
}
