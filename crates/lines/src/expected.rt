// What a line was expected to have at the place where it cannot be read on.
ghost use Rattle.std.specs.Prelude.{◌≡◌};
ghost use Rattle.lines.specs.Fields.{text_of};

use std::fmt;

// The words that say what follows.
#[derive(Clone, Copy, Debug, PartialEq, Eq)]
pub enum Keyword {
    Day,
    Price,
    Currency,
    Class,
    Rate,
    Value,
    Type,
    From,
    To,
    Security,
    Quantity,
    Cash,
    Reasons,
    Intended,
    Matched,
    Times,
}

#[derive(Clone, Copy, Debug, PartialEq, Eq)]
pub enum Expected {
    Word(Keyword),
    Line,
    Day,
    Span,
    Depository,
    Source,
    Base,
    Rows,
    Reach,
    Subject,
    Event,
    Security,
    Currency,
    Class,
    Price,
    Rate,
    Value,
    Instruction,
    Type,
    Party,
    Quantity,
    Cash,
    Reason,
    Side,
    Time,
    End,
    SomeSource,
    OneSource,
}

impl Keyword {
    pub(crate) fn text(self) -> &'static str
        ensures value { result.now ≡ text_of self }
    {
        match self {
            Keyword::Day => "day",
            Keyword::Price => "price",
            Keyword::Currency => "currency",
            Keyword::Class => "class",
            Keyword::Rate => "rate",
            Keyword::Value => "value",
            Keyword::Type => "type",
            Keyword::From => "from",
            Keyword::To => "to",
            Keyword::Security => "security",
            Keyword::Quantity => "quantity",
            Keyword::Cash => "cash",
            Keyword::Reasons => "reasons",
            Keyword::Intended => "intended",
            Keyword::Matched => "matched",
            Keyword::Times => "times",
        }
    }
}

impl Expected {
    fn text(self) -> &'static str {
        match self {
            Expected::Word(keyword) => keyword.text(),
            Expected::Line => "business, opted, source, security, currency, sheet or quote",
            Expected::Day => "a day MM-DD",
            Expected::Span => "a day MM-DD or a range MM-DD..MM-DD",
            Expected::Depository => "a depository from 10 to 99",
            Expected::Source => "plain, steps or carry",
            Expected::Base => "plain or steps",
            Expected::Rows => "a number of rows up to 1000000",
            Expected::Reach => "a number of days up to 255",
            Expected::Subject => "security or currency",
            Expected::Event => "fail or late",
            Expected::Security => "a security's number up to 65535",
            Expected::Currency => "EUR, DKK or a currency's number up to 255",
            Expected::Class => "a class up to 255",
            Expected::Price => "a price with four decimals",
            Expected::Rate => "a rate with eight decimals",
            Expected::Value => "a euro value with six decimals",
            Expected::Instruction => "an instruction's number up to 4294967295",
            Expected::Type => "a type up to 255",
            Expected::Party => "a party's number up to 65535",
            Expected::Quantity => "a quantity up to 18446744073709551615",
            Expected::Cash => "cash with two decimals",
            Expected::Reason => "a reason up to 255",
            Expected::Side => "before or after",
            Expected::Time => "a time up to 4294967295",
            Expected::End => "the end of the line",
            Expected::SomeSource => "a source line in the journal, since it has calls",
            Expected::OneSource => "only one source line",
        }
    }
}

impl fmt::Display for Expected {
    fn fmt<W: fmt::Write>(&self, f: &mut fmt::Formatter<W>) -> fmt::Result {
        let text = self.text();
        match self {
            Expected::Word(_) => write!(f, "the word {text}"),
            _ => write!(f, "{text}"),
        }
    }
}
