// A whole journal, read from its text.
ghost use Rattle.std.specs.Prelude.{◌≡◌, ◌-◌, [], ◌++◌, map, Some, Ok, Err, MatchOption, MatchResult, slice_index_or};
ghost use Rattle.words.specs.Words.{lines_of};
ghost use Rattle.lines.specs.Lines.{said_by, line_of};
ghost use Rattle.journal.specs.Whole.{Adds, Stops, Holds, numbered, marked, kept_by, adding, adding_line, all_read, unsourced, journal_of};

use crate::said::{Journal, Numbered};
use lines::expected::Expected;
use lines::line::line_of;
use lines::said::{Line, Source, Span};
use lines::unread::Unread;
use std::alloc::Global;
use std::fmt;
use words::scan::Lines;

// The line that cannot be read, with its number from 1.
#[derive(Clone, Copy, Debug, PartialEq, Eq)]
pub struct Malformed<'a> {
    pub number: usize,
    pub text: &'a [u8],
    pub expected: Expected,
}

// Why a journal was not read.
#[derive(Clone, Copy, Debug, PartialEq, Eq)]
pub enum NotRead<'a> {
    Malformed(Malformed<'a>),
    Memory,
}

fn add_spans(business: &mut Vec<Numbered<Span>>, line: usize, spans: &[Span]) -> Result<(), Unread>
    ensures cases { MatchResult result (λ _. business.new.items ≡ business.old.items ++ map (numbered line) spans.now) (λ e. e ≡ Unread.Memory) }
{
    for &said in spans {
        business.push(Numbered { line, said })?;
    }
    Ok(())
}

fn mark(opted: &mut [bool], places: &[u8])
    ensures after { opted.new ≡ marked opted.old places.now }
{
    for &place in places {
        // After `get_mut` no proof knows what the slice holds.
        let place = usize::from(place);
        if place < opted.len() {
            opted[place] = true;
        }
    }
}

fn set_source(slot: &mut Option<Source>, source: Source) -> Result<(), Unread>
    ensures cases { MatchOption slot.old ((result ≡ Ok tt) × (slot.new ≡ Some source)) (λ _. result ≡ Err (Unread.Malformed Expected.OneSource)) }
{
    if slot.is_some() {
        return Err(Expected::OneSource.into());
    }
    *slot = Some(source);
    Ok(())
}

impl Journal {
    fn add(&mut self, number: usize, line: Line) -> Result<(), Unread>
        ensures cases { Adds result (adding (kept_by self.old) number (said_by line)) (kept_by self.new) }
    {
        match line {
            Line::Business(spans) => add_spans(&mut self.business, number, &spans)?,
            Line::Opted(places) => mark(&mut self.opted, &places),
            Line::Source(source) => set_source(&mut self.source, source)?,
            Line::Call(said) => self.calls.push(Numbered { line: number, said })?,
        }
        Ok(())
    }

    fn add_line(&mut self, heap: Global, number: usize, text: &[u8]) -> Result<(), Unread>
        ensures cases { Adds result (adding_line (kept_by self.old) number (line_of text.now)) (kept_by self.new) }
    {
        match line_of(heap, text)? {
            Some(line) => self.add(number, line),
            None => Ok(()),
        }
    }

    // The line of the first call, where no line sets a source.
    fn unsourced_line(&self) -> Option<usize>
        ensures value { result ≡ unsourced self.now.source self.now.calls.items }
    {
        match self.source {
            Some(_) => None,
            None => self.calls.first().map(|call| call.line),
        }
    }
}

fn not_read<'a>(number: usize, text: &'a [u8], why: Unread) -> NotRead<'a>
    ensures cases { Stops why number text.now result }
{
    match why {
        Unread::Malformed(expected) => NotRead::Malformed(Malformed {
            number,
            text,
            expected,
        }),
        Unread::Memory => NotRead::Memory,
    }
}

#[tactic(auto, unfolding(crate::specs::Whole::all_read))]
fn read_all<'a>(heap: Global, text: &'a [u8]) -> Result<Journal, NotRead<'a>>
    ensures cases { Holds result (all_read text.now) }
{
    let mut journal = Journal {
        business: Vec::new(heap),
        opted: [false; 90],
        source: None,
        calls: Vec::new(heap),
    };
    for (before, line) in Lines::new(text).enumerate() {
        let number = before + 1;
        journal
            .add_line(heap, number, line)
            .map_err(|why| not_read(number, line, why))?;
    }
    Ok(journal)
}

// The line of a number from 1, or nothing past the last.
fn line_at<'a>(text: &'a [u8], number: usize) -> &'a [u8]
    ensures value { result.now ≡ slice_index_or (lines_of text.now) (number - 1) [] }
{
    Lines::new(text)
        .nth(number.saturating_sub(1))
        .unwrap_or_default()
}

// Reads all lines, or says why the first that cannot be read was not. A journal with calls has a source.
#[tactic(auto, unfolding(crate::specs::Whole::journal_of))]
pub fn journal_of<'a>(heap: Global, text: &'a [u8]) -> Result<Journal, NotRead<'a>>
    ensures cases { Holds result (journal_of text.now) }
{
    let journal = read_all(heap, text)?;
    match journal.unsourced_line() {
        None => Ok(journal),
        Some(number) => Err(NotRead::Malformed(Malformed {
            number,
            text: line_at(text, number),
            expected: Expected::SomeSource,
        })),
    }
}

impl fmt::Display for Malformed<'_> {
    fn fmt<W: fmt::Write>(&self, f: &mut fmt::Formatter<W>) -> fmt::Result {
        let text = std::str::from_utf8(self.text).map_or("(no UTF-8 text)", |text| text.trim_end());
        write!(
            f,
            "line {}: expected {}: {text}",
            self.number, self.expected
        )
    }
}

impl fmt::Display for NotRead<'_> {
    fn fmt<W: fmt::Write>(&self, f: &mut fmt::Formatter<W>) -> fmt::Result {
        match self {
            NotRead::Malformed(malformed) => write!(f, "{malformed}"),
            NotRead::Memory => write!(f, "no memory for the journal"),
        }
    }
}
