// What a call answers: done, or the refusal by the first check that fails. Numbers and fields are those of document 01's table, and of document 02 from 10 on.
#![tactic(auto)]

ghost use Rattle.std.specs.Prelude.{◌≡◌};
ghost use Rattle.answer.specs.Answer.{number_of, given_sign, given_magnitude, values_of};

#[derive(Clone, Copy)]
pub enum Answer {
    // The exception count; of a call that writes text, that text's length in bytes.
    Done(u64),
    Handling,
    Table,
    // The first faulty line of the source (or only) sheet, and of the destination sheet.
    Source(u32),
    Destination(u32),
    Path,
    Count,
    Room,
    // The record, the destination byte in it, the kind of the exception, and the number that raised it.
    Stop(u32, u32, u32, Given),
    Range,
    // An int leaf of the reader's sheet is wider than a report takes.
    Channel,
    // The report takes no more records, or holds what no report leaves.
    Full,
    // A symbol of a source enum does not stand in the destination enum that it is matched with.
    Symbols,
}

// The number that was given to the step that fits a number into its destination: a whole number by its sign, true where it is negative, and its magnitude, or
// the 64 bits of a real.
#[derive(Clone, Copy)]
pub enum Given {
    Whole(bool, u64),
    Real(u64),
}

// Which of them it is, as a number.
pub const PLUS: u32 = 0;

pub const MINUS: u32 = 1;

pub const REAL: u32 = 2;

// The fields that document 01's table names beside an answer's number; a field that the table does not name is 0.
#[derive(Clone, Copy, Default)]
pub struct Values {
    pub count: u64,
    pub line: u32,
    pub record: u32,
    pub at: u32,
    pub kind: u32,
    // Of the number that raised an exception: which it is, and its magnitude or bits.
    pub given: u32,
    pub magnitude: u64,
}

// The number of an answer.
pub fn number_of(a: Answer) -> u32
    ensures { result ≡ number_of a }
{
    match a {
        Answer::Done(_) => 0,
        Answer::Handling => 1,
        Answer::Table => 2,
        Answer::Source(_) => 3,
        Answer::Destination(_) => 4,
        Answer::Path => 5,
        Answer::Count => 6,
        Answer::Room => 7,
        Answer::Stop(_, _, _, _) => 8,
        Answer::Range => 9,
        Answer::Channel => 10,
        Answer::Full => 11,
        Answer::Symbols => 12,
    }
}

// Which number was given.
fn given_sign(given: Given) -> u32
    ensures { result ≡ given_sign given }
{
    match given {
        Given::Whole(true, _) => MINUS,
        Given::Whole(false, _) => PLUS,
        Given::Real(_) => REAL,
    }
}

// The given number's magnitude, or a real's bits.
fn given_magnitude(given: Given) -> u64
    ensures { result ≡ given_magnitude given }
{
    match given {
        Given::Whole(_, magnitude) => magnitude,
        Given::Real(bits) => bits,
    }
}

// Every field beside an answer's number.
pub fn values_of(a: Answer) -> Values
    ensures { result ≡ values_of a }
{
    match a {
        Answer::Done(count) => Values {
            count,
            ..Values::default()
        },
        Answer::Source(line) | Answer::Destination(line) => Values {
            line,
            ..Values::default()
        },
        Answer::Stop(record, at, kind, given) => Values {
            record,
            at,
            kind,
            given: given_sign(given),
            magnitude: given_magnitude(given),
            ..Values::default()
        },
        Answer::Handling
        | Answer::Table
        | Answer::Path
        | Answer::Count
        | Answer::Room
        | Answer::Range
        | Answer::Channel
        | Answer::Full
        | Answer::Symbols => Values::default(),
    }
}
