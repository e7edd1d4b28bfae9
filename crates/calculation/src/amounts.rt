// What a day's amount is reckoned from and comes to, with the limits by which no step leaves its width. Types of their own, so that
// none is taken for another; nothing compares them.
ghost use Rattle.std.specs.Prelude.{◌*◌, ◌^◌, ◌≤◌};
ghost use Rattle.sheets.specs.Limits.{greatest_worth};

// What a part is taken of, in ten-thousandths of a currency unit.
#[derive(Clone, Copy)]
pub(crate) struct Worth {
    pub(crate) number: u64,
    ghost limit: { number ≤ greatest_worth },
}

// The euro values by which a part is turned from one currency into another.
#[derive(Clone, Copy)]
pub(crate) struct Conversion {
    pub(crate) from: u32,
    pub(crate) into: u32,
    ghost limit: { from ≤ 10 ^ 7 },
    ghost some: { 1 ≤ into },
}

// A part of a day's amount, in hundredths.
#[derive(Clone, Copy)]
pub(crate) struct Part {
    pub(crate) number: u64,
    ghost limit: { number ≤ 10 ^ 16 },
}

// What one used day comes to, in hundredths.
#[derive(Clone, Copy)]
pub(crate) struct Amount {
    pub(crate) number: u64,
    ghost limit: { number ≤ 2 * 10 ^ 16 },
}
