// Lines of one word or more, each of one kind: days of business, and depositories.
ghost use Rattle.std.specs.Prelude.{◌≡◌, ℕ, T as Holds, List, length, Some, Option};
ghost use Rattle.lines.specs.Grammar.{Makes};
ghost use Rattle.lines.specs.Lists.{is_range, range_of, span_of, depository_of, listed};
ghost use Rattle.lines.specs.Unread.{Lists};

use crate::expected::Expected;
use crate::said::Span;
use crate::unread::Unread;
use std::alloc::Global;
use words::read::{day_of, is, number_of};
use words::scan::Words;

fn range(first: u16, last: u16) -> Option<Span>
    ensures value { result ≡ range_of (Some first) (Some last) }
{
    (first <= last).then_some(Span { first, last })
}

// Whether two points stand between two words as long as days.
fn is_range(word: &[u8]) -> bool
    ensures value { result ≡ is_range word.now }
    ensures long { Holds result → length word.now ≡ 12 }
{
    word.len() == 12 && is(&word[5..7], b"..")
}

// A day, or two with `..` between them.
pub(crate) fn span_of(word: &[u8]) -> Option<Span>
    ensures value { result ≡ span_of word.now }
{
    if !is_range(word) {
        let day = day_of(word)?;
        return range(day, day);
    }
    let first = day_of(&word[..5])?;
    let last = day_of(&word[7..])?;
    range(first, last)
}

// The place of a depository from 10 to 99.
pub(crate) fn depository_of(word: &[u8]) -> Option<u8>
    ensures value { result ≡ depository_of word.now }
{
    let place = number_of(word, 99)?.checked_sub(10)?;
    Some(place as u8)
}

// One word or more, of each of which `read` makes an item.
pub(crate) fn items<T: Drop, F: Fn(&[u8]) -> Option<T>>(
    heap: Global,
    words: &mut Words<'_>,
    expected: Expected,
    read: F,
) -> Result<Vec<T>, Unread>
    requires { F.IsAlwaysCallable read }
    ensures cases { (f : List ℕ → Option T) → Makes (F.post read) f → Lists result (listed f expected words.old) }
{
    let mut all = Vec::new(heap);
    for word in words {
        all.push(read(word).ok_or(expected)?)?;
    }
    if all.is_empty() {
        return Err(expected.into());
    }
    Ok(all)
}
