// The lines of a text and the words of a line, taken one after another.
ghost use Rattle.std.specs.Prelude.{◌≡◌, ℕ, Bool, drop, length};
ghost use Rattle.std.specs.Iterator.{at_most};
ghost use Rattle.std.specs.List.{prefix_len, take_while};
ghost use Rattle.words.specs.Words.{Answers, blank, Takes, next_word, after_word, words_of, before_comment, next_line, after_line, lines_of};

use std::marker::Model;

// What is left of a line.
#[derive(Drop)]
pub struct Words<'a> {
    rest: &'a [u8],
}

impl<'a> Model for Words<'a> {
    ghost use Rattle.std.specs.Prelude.{ℕ, List};

    ghost Value = { List ℕ };

    ghost view = { λ w. w.rest.now };
}

// What is left of a text.
#[derive(Drop)]
pub struct Lines<'a> {
    rest: &'a [u8],
}

impl<'a> Model for Lines<'a> {
    ghost use Rattle.std.specs.Prelude.{ℕ, List};

    ghost Value = { List ℕ };

    ghost view = { λ l. l.rest.now };
}

fn is_blank(byte: u8) -> bool
    ensures value { result ≡ blank byte }
{
    matches!(byte, b' ' | b'\t' | b'\r')
}

// The bytes in front that pass, and the rest.
fn split_while<F: Fn(u8) -> bool>(bytes: &[u8], passes: F) -> (&[u8], &[u8])
    requires { F.IsAlwaysCallable passes }
    ensures value { (p : ℕ → Bool) → Answers (F.post passes) p → (result.0.now ≡ take_while p bytes.now) × (result.1.now ≡ drop (prefix_len p bytes.now) bytes.now) }
{
    let length = bytes.iter().take_while(|b| passes(**b)).count();
    bytes.split_at(length)
}

// All bytes but the first, if there is one.
fn behind_first(bytes: &[u8]) -> &[u8]
    ensures value { result.now ≡ drop 1 bytes.now }
{
    bytes.get(1..).unwrap_or_default()
}

impl<'a> Lines<'a> {
    pub fn new(text: &'a [u8]) -> Lines<'a>
        ensures value { result ≡ text.now }
    {
        Lines { rest: text }
    }
}

impl<'a> Iterator for Lines<'a> {
    type Item = &'a [u8];

    ghost next_gives = { Takes next_line after_line lines_of };

    ghost remaining = { λ left. at_most (length left) };

    // The next line, without its line feed.
    fn next(&mut self) -> Option<&'a [u8]> {
        if self.rest.is_empty() {
            return None;
        }
        let (line, rest) = split_while(self.rest, |b| b != b'\n');
        self.rest = behind_first(rest);
        Some(line)
    }
}

impl<'a> Words<'a> {
    // The words before a `#`.
    pub fn new(line: &'a [u8]) -> Words<'a>
        ensures value { result ≡ before_comment line.now }
    {
        let (text, _) = split_while(line, |b| b != b'#');
        Words { rest: text }
    }
}

impl<'a> Iterator for Words<'a> {
    type Item = &'a [u8];

    ghost next_gives = { Takes next_word after_word words_of };

    ghost remaining = { λ left. at_most (length left) };

    fn next(&mut self) -> Option<&'a [u8]> {
        let (_, text) = split_while(self.rest, is_blank);
        let (word, rest) = split_while(text, |b| !is_blank(b));
        self.rest = rest;
        Some(word).filter(|word| !word.is_empty())
    }
}
