// The line of a journal that sets where sheets are kept.
ghost use Rattle.lines.specs.Grammar.{Reads};
ghost use Rattle.lines.specs.Settings as settings;

use crate::choice::{BaseKind, Form, base_kind_of, form_of};
use crate::expected::Expected;
use crate::field;
use crate::said::{Base, Source};
use words::read::number_of;
use words::scan::Words;

const MOST_ROWS: u64 = 1_000_000;

fn rows(words: &mut Words<'_>) -> Result<usize, Expected>
    ensures cases { Reads settings.rows words.old result words.new }
{
    field::word(words, Expected::Rows, |word| {
        number_of(word, MOST_ROWS).map(|number| number as usize)
    })
}

fn plain(words: &mut Words<'_>) -> Result<Base, Expected>
    ensures cases { Reads settings.plain words.old result words.new }
{
    let securities = rows(words)?;
    let currencies = rows(words)?;
    Ok(Base::Plain {
        securities,
        currencies,
    })
}

// A match: the kinds are closed, and each reads words of its own.
fn base(words: &mut Words<'_>, kind: BaseKind) -> Result<Base, Expected>
    ensures cases { Reads (settings.based kind) words.old result words.new }
{
    match kind {
        BaseKind::Plain => plain(words),
        BaseKind::Steps => Ok(Base::Steps),
    }
}

fn carry(words: &mut Words<'_>) -> Result<Source, Expected>
    ensures cases { Reads settings.carry words.old result words.new }
{
    let reach = field::number(words, Expected::Reach)?;
    let kind = field::word(words, Expected::Base, base_kind_of)?;
    let base = base(words, kind)?;
    Ok(Source {
        reach: Some(reach),
        base,
    })
}

// A match, as in `base`.
pub(crate) fn source(words: &mut Words<'_>) -> Result<Source, Expected>
    ensures cases { Reads settings.source words.old result words.new }
{
    match field::word(words, Expected::Source, form_of)? {
        Form::Base(kind) => Ok(Source {
            reach: None,
            base: base(words, kind)?,
        }),
        Form::Carry => carry(words),
    }
}
