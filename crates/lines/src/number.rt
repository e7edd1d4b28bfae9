// Numbers in words, each up to the greatest of its type.
ghost use Rattle.std.specs.Prelude.{◌≡◌, ℕ, List, Option};
ghost use Rattle.words.specs.Numbers.{number_of};

use words::read::number_of;

// One body for all four types, in the trait or by `TryFrom<u64>`, would need a law of each one's casts, which is no shorter.
pub(crate) trait Number: Copy {
    ghost written: { List ℕ → Option Self };

    fn of_word(word: &[u8]) -> Option<Self>
        ensures value { result ≡ written word.now };
}

impl Number for u8 {
    ghost written = { number_of 255 };

    fn of_word(word: &[u8]) -> Option<u8> {
        let number = number_of(word, u64::from(u8::MAX))?;
        Some(number as u8)
    }
}

impl Number for u16 {
    ghost written = { number_of 65535 };

    fn of_word(word: &[u8]) -> Option<u16> {
        let number = number_of(word, u64::from(u16::MAX))?;
        Some(number as u16)
    }
}

impl Number for u32 {
    ghost written = { number_of 4294967295 };

    fn of_word(word: &[u8]) -> Option<u32> {
        let number = number_of(word, u64::from(u32::MAX))?;
        Some(number as u32)
    }
}

impl Number for u64 {
    ghost written = { number_of 18446744073709551615 };

    fn of_word(word: &[u8]) -> Option<u64> {
        number_of(word, u64::MAX)
    }
}
