// Words of which a line has one or another.
ghost use Rattle.std.specs.Prelude.{◌≡◌};
ghost use Rattle.lines.specs.Fields.{kind_of, form_of, base_kind_of, side_of, subject_of, happened_of};

// What a sheet is of.
#[derive(Clone, Copy)]
pub(crate) enum Subject {
    Security,
    Currency,
}

// What a quote is for.
#[derive(Clone, Copy)]
pub(crate) enum Happened {
    Fail,
    Late,
}

// The first words of the lines that are calls.
#[derive(Clone, Copy)]
pub(crate) enum Verb {
    Security,
    Currency,
    Sheet,
    Quote,
}

// The first words of lines.
#[derive(Clone, Copy)]
pub(crate) enum Kind {
    Business,
    Opted,
    Source,
    Call(Verb),
}

// The bases of a source.
#[derive(Clone, Copy)]
pub(crate) enum BaseKind {
    Plain,
    Steps,
}

// What a source is made of: its base, or a layer over one.
#[derive(Clone, Copy)]
pub(crate) enum Form {
    Base(BaseKind),
    Carry,
}

// Whether a match came after the cut-off, as a late event keeps it.
pub(crate) fn side_of(word: &[u8]) -> Option<bool>
    ensures value { result ≡ side_of word.now }
{
    match word {
        b"before" => Some(false),
        b"after" => Some(true),
        _ => None,
    }
}

// Each choice is a table of its own words; a function over a table given as a slice would be no shorter.
pub(crate) fn subject_of(word: &[u8]) -> Option<Subject>
    ensures value { result ≡ subject_of word.now }
{
    match word {
        b"security" => Some(Subject::Security),
        b"currency" => Some(Subject::Currency),
        _ => None,
    }
}

pub(crate) fn happened_of(word: &[u8]) -> Option<Happened>
    ensures value { result ≡ happened_of word.now }
{
    match word {
        b"fail" => Some(Happened::Fail),
        b"late" => Some(Happened::Late),
        _ => None,
    }
}

pub(crate) fn kind_of(word: &[u8]) -> Option<Kind>
    ensures value { result ≡ kind_of word.now }
{
    match word {
        b"business" => Some(Kind::Business),
        b"opted" => Some(Kind::Opted),
        b"source" => Some(Kind::Source),
        b"security" => Some(Kind::Call(Verb::Security)),
        b"currency" => Some(Kind::Call(Verb::Currency)),
        b"sheet" => Some(Kind::Call(Verb::Sheet)),
        b"quote" => Some(Kind::Call(Verb::Quote)),
        _ => None,
    }
}

pub(crate) fn base_kind_of(word: &[u8]) -> Option<BaseKind>
    ensures value { result ≡ base_kind_of word.now }
{
    match word {
        b"plain" => Some(BaseKind::Plain),
        b"steps" => Some(BaseKind::Steps),
        _ => None,
    }
}

pub(crate) fn form_of(word: &[u8]) -> Option<Form>
    ensures value { result ≡ form_of word.now }
{
    match word {
        b"carry" => Some(Form::Carry),
        _ => base_kind_of(word).map(Form::Base),
    }
}
