// Why a side says that a trade failed to settle.
ghost use Rattle.std.specs.Prelude.{◌≡◌};
ghost use Rattle.reports.specs.Reports.{is_met};
ghost use Rattle.reports.specs.Reasons.{reason_number, IsReason};

use sheets::units::Outside;

// What keeps a side's instruction from settling.
#[derive(Clone, Copy, PartialEq, Eq)]
pub(crate) enum Obstacle {
    Lack,
    MissingLink,
    Hold,
}

// A side's reason is an obstacle of its own (1, 3 and 5) or one of the other side (2, 4 and 6).
#[derive(Clone, Copy, PartialEq, Eq)]
pub(crate) enum Reason {
    Own(Obstacle),
    Other(Obstacle),
}

impl TryFrom<u8> for Reason {
    type Error = Outside;

    ghost try_from_gives = { IsReason };

    fn try_from(number: u8) -> Result<Reason, Outside> {
        match number {
            1 => Ok(Reason::Own(Obstacle::Lack)),
            2 => Ok(Reason::Other(Obstacle::Lack)),
            3 => Ok(Reason::Own(Obstacle::MissingLink)),
            4 => Ok(Reason::Other(Obstacle::MissingLink)),
            5 => Ok(Reason::Own(Obstacle::Hold)),
            6 => Ok(Reason::Other(Obstacle::Hold)),
            _ => Err(Outside),
        }
    }
}

impl Reason {
    // An obstacle of the other side has to be that side's own reason: one arm has a test, the other needs none.
    pub(crate) fn is_met(self, other: Reason) -> bool
        ensures value { result ≡ is_met (reason_number self) (reason_number other) }
    {
        match self {
            Reason::Own(_) => true,
            Reason::Other(obstacle) => other == Reason::Own(obstacle),
        }
    }
}
