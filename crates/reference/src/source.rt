// What every source promises.
ghost use Rattle.std.specs.Prelude.{◌≡◌};
ghost use Rattle.reference.specs.Meaning.{Meaning, Own, SecurityEntered, CurrencyEntered};

use sheets::fault::Fault;
use sheets::sheet::{CurrencySheet, SecuritySheet};
use sheets::units::{Currency, Day, Security};

// One method for each kind of sheet: a generic one would need a table of each kind from one source, an associated type with a
// parameter, which Rattle lacks.
pub trait Source {
    ghost meaning: { Self → Meaning };

    fn security(&self, security: Security, day: Day) -> Option<SecuritySheet>
        ensures value { result ≡ (meaning self.now).securities.sheet security.number day.number };

    fn currency(&self, currency: Currency, day: Day) -> Option<CurrencySheet>
        ensures value { result ≡ (meaning self.now).currencies.sheet currency.number day.number };

    // The last day that the entry reaches, or a refusal if the source would not take it.
    fn enter_security(
        &mut self,
        security: Security,
        day: Day,
        sheet: SecuritySheet,
    ) -> Result<Day, Fault>
        ensures entered { SecurityEntered (meaning self.old) (meaning self.new) security.number day.number sheet result };

    // The same under the sheet's own currency.
    fn enter_currency(&mut self, day: Day, sheet: CurrencySheet) -> Result<Day, Fault>
        ensures entered { CurrencyEntered (meaning self.old) (meaning self.new) day.number sheet result };

    // A currency sheet stands under its own currency.
    ghost own: { (s : Self) → Own (meaning s).currencies };
}
