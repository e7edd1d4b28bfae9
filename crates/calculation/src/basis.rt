// What a charge rests on besides the report. The opted depositories are a fixed number of marks.
use reports::calendar::Calendar;

#[derive(Drop)]
pub(crate) struct Basis<'a, S> {
    pub(crate) source: &'a S,
    pub(crate) calendar: &'a Calendar,
    pub(crate) opted: &'a [bool; 90],
}
