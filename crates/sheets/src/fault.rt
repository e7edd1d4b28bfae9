// Why a call is turned away: the rule that was broken, the layer that found it, and the place.
ghost use Rattle.std.specs.Prelude.{◌≡◌};
ghost use Rattle.sheets.specs.Numbers.{number_of, layer_number};
ghost use Rattle.sheets.specs.Refusals.{fault};

#[derive(Clone, Copy, Debug, PartialEq, Eq)]
pub enum Rule {
    ValueOutside = 1,
    NoSuchClass = 2,
    NoSuchCurrency = 3,
    RateTooHigh = 4,
    NoSuchSecurity = 5,
    NoSuchDay = 6,
    NotTaken = 7,
    NoSuchParty = 9,
    FieldsUnfit = 10,
    ReasonsUnlawful = 11,
    NoBusinessDay = 12,
    NoUsedDay = 13,
    SecurityMissing = 15,
    CurrencyMissing = 16,
    ValueTooLarge = 17,
}

#[derive(Clone, Copy, Debug, PartialEq, Eq)]
pub enum Layer {
    Sheet = 1,
    Source = 2,
    Calculation = 3,
    Book = 4,
}

// A place is two numbers; where a rule has one alone, the second is 0.
#[derive(Clone, Copy, Debug, PartialEq, Eq)]
pub struct Fault {
    pub rule: Rule,
    pub layer: Layer,
    pub place: (u64, u64),
}

impl Layer {
    // The layer turns a call away by the rule, at the place.
    pub fn refuses(self, rule: Rule, first: u64, second: u64) -> Fault
        ensures value { result ≡ fault rule self first second }
    {
        Fault {
            rule,
            layer: self,
            place: (first, second),
        }
    }
}

impl Fault {
    pub fn number(self) -> u8
        ensures value { result ≡ number_of self.rule }
    {
        self.rule as u8
    }

    pub fn layer_number(self) -> u8
        ensures value { result ≡ layer_number self.layer }
    {
        self.layer as u8
    }
}
