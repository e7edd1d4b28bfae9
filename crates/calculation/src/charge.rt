// Charges: the failing party is debited, the other credited, the same amount. Its numbers are the raw ones that were reported, as
// they are printed.

// A penalty's currency and amount, in hundredths.
#[derive(Clone, Copy, Debug, PartialEq, Eq)]
pub struct Figure {
    pub currency: u8,
    pub amount: u64,
}

#[derive(Clone, Copy, Debug, PartialEq, Eq)]
pub struct Charge {
    pub failing: u16,
    pub other: u16,
    pub currency: u8,
    pub amount: u64,
}

// One penalty, or the deliverer's and then the receiver's.
#[derive(Clone, Copy, Debug, PartialEq, Eq)]
pub enum Charges {
    One(Charge),
    Two(Charge, Charge),
}
