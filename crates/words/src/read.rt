// What one word writes: a number, a decimal, a day or a currency.
ghost use Rattle.std.specs.Prelude.{◌≡◌, ◌≤◌, ◌++◌, IfSome};
ghost use Rattle.std.specs.Str.{bytes_eq};
ghost use Rattle.words.specs.Numbers.{one_more, fits, number_of, decimal_of, day_of, currency_of};

// The number n with one digit more, where it is a digit and the number fits.
fn one_more(n: u64, byte: u8) -> Option<u64>
    ensures value { result ≡ one_more n byte }
{
    if !byte.is_ascii_digit() {
        return None;
    }
    n.checked_mul(10)?.checked_add(u64::from(byte - b'0'))
}

// The number that the digits write, after those of `start`.
#[tactic(auto, using(crate::proofs::Digits::digits_turn, crate::proofs::Digits::digits_done))]
fn digits(bytes: &[u8], start: u64) -> Option<u64>
    ensures value { result ≡ fits start bytes.now }
{
    let mut n = start;
    for byte in bytes {
        n = one_more(n, *byte)?;
    }
    Some(n)
}

// Digits alone, one or more, of at most `limit`.
pub fn number_of(word: &[u8], limit: u64) -> Option<u64>
    ensures value { result ≡ number_of limit word.now }
    ensures bound { IfSome result (λ n. n ≤ limit) }
{
    if word.is_empty() {
        return None;
    }
    digits(word, 0).filter(|n| *n <= limit)
}

// The number that the digits of both write, one after the other.
#[tactic(auto, using(crate::proofs::Digits::fits_append))]
fn joined(whole: &[u8], part: &[u8]) -> Option<u64>
    ensures value { result ≡ fits 0 (whole.now ++ part.now) }
{
    let n = digits(whole, 0)?;
    digits(part, n)
}

// Digits, a point and exactly `places` digits, read with the point left out.
pub fn decimal_of(word: &[u8], places: u8) -> Option<u64>
    ensures value { result ≡ decimal_of places word.now }
{
    let places = usize::from(places);
    if word.len() < places + 2 {
        return None;
    }
    let (whole, part) = word.split_at(word.len() - places - 1);
    joined(whole, part.strip_prefix(b".")?)
}

// A day MM-DD, with MM from 01 to 99 and DD from 01 to 31, as 31 × (MM − 1) + DD − 1.
pub fn day_of(word: &[u8]) -> Option<u16>
    ensures value { result ≡ day_of word.now }
{
    if word.len() != 5 || word[2] != b'-' {
        return None;
    }
    let month = number_of(&word[..2], 99)?.checked_sub(1)?;
    let day = number_of(&word[3..], 31)?.checked_sub(1)?;
    Some((31 * month + day) as u16)
}

// Whether the word is this text.
pub fn is(word: &[u8], text: &[u8]) -> bool
    ensures value { result ≡ bytes_eq word.now text.now }
{
    word == text
}

// EUR, DKK or a currency's number, raw, since a call judges it.
pub fn currency_of(word: &[u8]) -> Option<u8>
    ensures value { result ≡ currency_of word.now }
{
    match word {
        b"EUR" => Some(0),
        b"DKK" => Some(1),
        _ => number_of(word, 255).map(|number| number as u8),
    }
}
