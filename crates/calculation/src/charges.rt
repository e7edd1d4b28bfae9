// What a report is charged, to whom and for whom.
ghost use Rattle.std.specs.Prelude.{◌≡◌};
ghost use Rattle.reports.specs.Days.{days_of};
ghost use Rattle.calculation.specs.Steps.{result_of};
ghost use Rattle.reports.specs.Terms.{terms_of};
ghost use Rattle.reference.specs.Meaning.{answers};
ghost use Rattle.calculation.specs.Charging.{charge_of, charging_side, charging, charges_of};
ghost use Rattle.calculation.specs.Figures.{Figures};
ghost use Rattle.calculation.specs.Reading.{DependsOnReads};

use crate::basis::Basis;
use crate::charge::{Charge, Charges, Figure};
use reference::source::Source;
use reports::calendar::Calendar;
use reports::check::check;
use reports::report::{Failing, Report, Side, Trade};
use sheets::fault::Fault;

fn charge_of(trade: Trade, side: Side, figure: Figure) -> Charge
    ensures value { result ≡ charge_of (terms_of trade) side figure }
{
    let (failing, other) = match side {
        Side::Deliverer => (trade.deliverer, trade.receiver),
        Side::Receiver => (trade.receiver, trade.deliverer),
    };
    Charge {
        failing: failing.number,
        other: other.number,
        currency: figure.currency,
        amount: figure.amount,
    }
}

impl<S: Source> Basis<'_, S> {
    // The charge of one side, or the first fault.
    #[tactic(auto, using(crate::proofs::Binding::result_bind))]
    fn charge(&self, trade: Trade, side: Side) -> Result<Charge, Fault>
        ensures value { result ≡ result_of (answers (S.meaning self.now.source.now)) (charging_side self.now.opted.now (terms_of trade) side (days_of self.now.calendar.now.business trade.span)) }
    {
        let figure = self.figure_of(trade, side)?;
        Ok(charge_of(trade, side, figure))
    }

    // The charges of a checked trade, or the first fault.
    #[tactic(auto, using(crate::proofs::Binding::result_bind))]
    fn charges(&self, trade: Trade) -> Result<Charges, Fault>
        ensures value { result ≡ result_of (answers (S.meaning self.now.source.now)) (charging self.now.opted.now (terms_of trade) trade.span.failing (days_of self.now.calendar.now.business trade.span)) }
    {
        match trade.span.failing {
            Failing::OnlyDeliverer => self.charge(trade, Side::Deliverer).map(Charges::One),
            Failing::OnlyReceiver => self.charge(trade, Side::Receiver).map(Charges::One),
            Failing::Both => {
                let deliverer = self.charge(trade, Side::Deliverer)?;
                let receiver = self.charge(trade, Side::Receiver)?;
                Ok(Charges::Two(deliverer, receiver))
            }
        }
    }
}

// What a report is charged, or the first rule that it breaks. The public call keeps its parameters apart.
#[tactic(auto, using(crate::proofs::Dependence::depends, crate::proofs::Worked::worked))]
pub fn charges<S: Source>(
    source: &S,
    calendar: &Calendar,
    opted: &[bool; 90],
    report: Report,
) -> Result<Charges, Fault>
    ensures value { result ≡ charges_of calendar.now.business opted.now (answers (S.meaning source.now)) report }
    ensures reads { DependsOnReads calendar.now.business opted.now (answers (S.meaning source.now)) report result }
    ensures figures { Figures }
{
    let trade = check(calendar, report)?;
    let basis = Basis {
        source,
        calendar,
        opted,
    };
    basis.charges(trade)
}
