// What the lines of a journal say: its settings, and its calls, with raw numbers as they are written; the calls refuse what is none.
#[derive(Clone, Copy, Debug, PartialEq, Eq)]
pub struct Trade {
    pub instruction: u32,
    pub kind: u8,
    pub deliverer: u16,
    pub receiver: u16,
    pub security: u16,
    pub quantity: u64,
    pub cash: u64,
    pub currency: u8,
}

// A settlement fail on a day, or a match after the intended day; a match after the cut-off has `after`.
#[derive(Clone, Copy, Debug, PartialEq, Eq)]
pub enum Event {
    Fail {
        day: u16,
        reasons: (u8, u8),
    },
    Late {
        intended: u16,
        matched: u16,
        after: bool,
        times: (u32, u32),
    },
}

#[derive(Clone, Copy, Debug, PartialEq, Eq)]
pub struct Quote {
    pub trade: Trade,
    pub event: Event,
}

#[derive(Clone, Copy, Debug, PartialEq, Eq)]
pub enum Call {
    EnterSecurity {
        security: u16,
        day: u16,
        price: u64,
        currency: u8,
        class: u8,
    },
    EnterCurrency {
        currency: u8,
        day: u16,
        rate: u64,
        value: u64,
    },
    AskSecurity {
        security: u16,
        day: u16,
    },
    AskCurrency {
        currency: u8,
        day: u16,
    },
    Quote(Quote),
}

// The days from the first to the last, by their numbers.
#[derive(Clone, Copy, Debug, PartialEq, Eq)]
pub struct Span {
    pub first: u16,
    pub last: u16,
}

// Where sheets are kept: rows of their own, or steps from day to day.
#[derive(Clone, Copy, Debug, PartialEq, Eq)]
pub enum Base {
    Plain {
        securities: usize,
        currencies: usize,
    },
    Steps,
}

// With a reach, a sheet is carried over that many days.
#[derive(Clone, Copy, Debug, PartialEq, Eq)]
pub struct Source {
    pub reach: Option<u8>,
    pub base: Base,
}

// The opted depositories go by their places: 10 has the place 0.
#[derive(Debug, Drop, PartialEq, Eq)]
pub enum Line {
    Business(Vec<Span>),
    Opted(Vec<u8>),
    Source(Source),
    Call(Call),
}
