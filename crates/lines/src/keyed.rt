// Fields after the word that names them.
// One function that takes a closure in place of these was tried: its calls are longer, and each error of theirs needs an answer.
ghost use Rattle.lines.specs.Grammar.{Reads, field as one_word};
ghost use Rattle.lines.specs.Fields as fields;
ghost use Rattle.lines.specs.Calls.{keyed, pair as two};

use crate::expected::{Expected, Keyword};
use crate::field;
use crate::number::Number;
use words::scan::Words;

pub(crate) fn day(words: &mut Words<'_>, keyword: Keyword) -> Result<u16, Expected>
    ensures cases { Reads (keyed keyword fields.day) words.old result words.new }
{
    field::keyword(words, keyword)?;
    field::day(words)
}

pub(crate) fn currency(words: &mut Words<'_>) -> Result<u8, Expected>
    ensures cases { Reads (keyed Keyword.Currency fields.currency) words.old result words.new }
{
    field::keyword(words, Keyword::Currency)?;
    field::currency(words)
}

pub(crate) fn number<T: Number>(
    words: &mut Words<'_>,
    keyword: Keyword,
    expected: Expected,
) -> Result<T, Expected>
    ensures cases { Reads (keyed keyword (one_word T.written expected)) words.old result words.new }
{
    field::keyword(words, keyword)?;
    field::number(words, expected)
}

pub(crate) fn decimal(
    words: &mut Words<'_>,
    keyword: Keyword,
    places: u8,
    expected: Expected,
) -> Result<u64, Expected>
    ensures cases { Reads (keyed keyword (fields.decimal places expected)) words.old result words.new }
{
    field::keyword(words, keyword)?;
    field::decimal(words, places, expected)
}

// Two numbers of one kind.
pub(crate) fn pair<T: Number>(
    words: &mut Words<'_>,
    keyword: Keyword,
    expected: Expected,
) -> Result<(T, T), Expected>
    ensures cases { Reads (keyed keyword (two (one_word T.written expected))) words.old result words.new }
{
    field::keyword(words, keyword)?;
    let first = field::number(words, expected)?;
    let second = field::number(words, expected)?;
    Ok((first, second))
}
