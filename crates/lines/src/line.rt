// What one line of a journal says.
ghost use Rattle.std.specs.Prelude.{ℕ, List};
ghost use Rattle.lines.specs.Grammar.{Parsed, Reads, ReadsAs};
ghost use Rattle.lines.specs.Lines.{ended, line_for, line_of};
ghost use Rattle.lines.specs.Unread.{Says, Told};

use crate::choice::{Kind, kind_of};
use crate::expected::Expected;
use crate::list::{depository_of, items, span_of};
use crate::said::{Call, Line, Source};
use crate::unread::Unread;
use crate::{call, field, source};
use std::alloc::Global;
use words::scan::Words;

// What `read` reads, and nothing after it.
fn whole<T: Drop, F: FnOnce(&mut Words<'_>) -> Result<T, Expected>>(
    words: &mut Words<'_>,
    read: F,
) -> Result<T, Expected>
    requires { F.IsAlwaysCallable read }
    ensures cases { (p : List ℕ → Parsed T) → ReadsAs (F.post read) p → Reads (ended p) words.old result words.new }
{
    let value = read(words)?;
    field::end(words)?;
    Ok(value)
}

// A match: the kinds are closed, and each reads a line of its own.
fn line(heap: Global, words: &mut Words<'_>, kind: Kind) -> Result<Line, Unread>
    ensures cases { Says result (line_for kind words.old) }
{
    match kind {
        Kind::Business => Ok(Line::Business(items(heap, words, Expected::Span, span_of)?)),
        Kind::Opted => Ok(Line::Opted(items(heap, words, Expected::Depository, depository_of)?)),
        Kind::Source => Ok(Line::Source(whole(words, source::source)?)),
        Kind::Call(verb) => Ok(Line::Call(whole(words, |words| call::call(words, verb))?)),
    }
}

// What the line says, or `None` where it has no word.
#[tactic(auto, unfolding(crate::specs::Lines::line_of))]
pub fn line_of(heap: Global, text: &[u8]) -> Result<Option<Line>, Unread>
    ensures cases { Told result (line_of text.now) }
{
    let mut words = Words::new(text);
    let Some(first) = words.next() else {
        return Ok(None);
    };
    let kind = kind_of(first).ok_or(Expected::Line)?;
    Ok(Some(line(heap, &mut words, kind)?))
}
