// The fields of a line: each takes one word, or says what it expected; words and what is expected are two in the grammar, too.
ghost use Rattle.std.specs.Prelude.{ℕ, List, Option};
ghost use Rattle.lines.specs.Grammar.{Reads, Makes, field as one_word};
ghost use Rattle.lines.specs.Fields as fields;

use crate::expected::{Expected, Keyword};
use crate::number::Number;
use words::read::{currency_of, day_of, decimal_of, is};
use words::scan::Words;

// One word, of which `read` makes a value.
#[tactic(auto, unfolding(crate::specs::Grammar::field))]
pub(crate) fn word<T, F: FnOnce(&[u8]) -> Option<T>>(
    words: &mut Words<'_>,
    expected: Expected,
    read: F,
) -> Result<T, Expected>
    requires { F.IsAlwaysCallable read }
    ensures cases { (f : List ℕ → Option T) → Makes (F.post read) f → Reads (one_word f expected) words.old result words.new }
{
    let word = words.next().ok_or(expected)?;
    read(word).ok_or(expected)
}

pub(crate) fn keyword(words: &mut Words<'_>, keyword: Keyword) -> Result<(), Expected>
    ensures cases { Reads (fields.keyword keyword) words.old result words.new }
{
    word(words, Expected::Word(keyword), |word| {
        is(word, keyword.text().as_bytes()).then_some(())
    })
}

#[tactic(auto, unfolding(crate::specs::Grammar::field))]
pub(crate) fn number<T: Number>(words: &mut Words<'_>, expected: Expected) -> Result<T, Expected>
    ensures cases { Reads (one_word T.written expected) words.old result words.new }
{
    // `word(words, expected, T::of_word)` gets no proof: the function passed gives a T that its argument does not name.
    let word = words.next().ok_or(expected)?;
    T::of_word(word).ok_or(expected)
}

pub(crate) fn decimal(
    words: &mut Words<'_>,
    places: u8,
    expected: Expected,
) -> Result<u64, Expected>
    ensures cases { Reads (fields.decimal places expected) words.old result words.new }
{
    word(words, expected, |word| decimal_of(word, places))
}

// A day and a currency are functions of their own: tried without them, the goals of `keyed` stay open.
pub(crate) fn day(words: &mut Words<'_>) -> Result<u16, Expected>
    ensures cases { Reads fields.day words.old result words.new }
{
    word(words, Expected::Day, day_of)
}

pub(crate) fn currency(words: &mut Words<'_>) -> Result<u8, Expected>
    ensures cases { Reads fields.currency words.old result words.new }
{
    word(words, Expected::Currency, currency_of)
}

#[tactic(auto, unfolding(crate::specs::Fields::end))]
pub(crate) fn end(words: &mut Words<'_>) -> Result<(), Expected>
    ensures cases { Reads fields.end words.old result words.new }
{
    match words.next() {
        Some(_) => Err(Expected::End),
        None => Ok(()),
    }
}
