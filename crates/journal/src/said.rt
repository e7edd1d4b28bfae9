// A journal that was read: its settings, and its calls with the numbers of their lines.
use lines::said::{Call, Source, Span};

// What was said, and on which line, from 1.
#[derive(Clone, Copy, Debug, PartialEq, Eq)]
pub struct Numbered<T> {
    pub line: usize,
    pub said: T,
}

// A journal with a call has a source. Depository 10 stands first among the opted, whose number is fixed.
#[derive(Debug, Drop, PartialEq, Eq)]
pub struct Journal {
    pub business: Vec<Numbered<Span>>,
    pub opted: [bool; 90],
    pub source: Option<Source>,
    pub calls: Vec<Numbered<Call>>,
}
