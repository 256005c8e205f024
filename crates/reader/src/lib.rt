// A reader that holds a sheet and its place in it, and hands out one line at a time. Its methods are thin: each takes it apart and calls
// a function of the sheet and the place.
#![tactic(auto)]

ghost use Rattle.std.specs.Prelude.{◌≡◌};
ghost use Rattle.reader.specs.Lines.{line_from, line_numbered, place_after};

// A sheet, and the place in it where the next line starts.
#[derive(Clone, Copy)]
pub struct Reader<'a> {
    pub sheet: &'a [u8],
    pub at: usize,
}

// ---- a sheet and a place

// The place behind the line at a place.
fn next_place(s: &[u8], at: usize) -> usize
    ensures { result ≡ place_after s.now at 1 }
{
    for i in at..s.len() {
        if s[i] == b'\n' {
            return i + 1;
        }
    }
    s.len().max(at)
}

// The place behind the next n lines.
fn place_after(s: &[u8], at: usize, n: usize) -> usize
    ensures { result ≡ place_after s.now at n }
{
    let mut place = at;
    for _ in 0..n {
        place = next_place(s, place);
    }
    place
}

// The line at a place, with the byte 10 that ends it.
fn line_at(s: &[u8], at: usize) -> &[u8]
    ensures { result.now ≡ line_from s.now at }
{
    if s.len() < at {
        return &[];
    }
    &s[at..next_place(s, at)]
}

// ---- a reader

impl<'a> Reader<'a> {
    // A reader at the first line.
    pub fn new(sheet: &'a [u8]) -> Reader<'a>
        ensures { (result.sheet ≡ sheet.entry) × (result.at ≡ 0) }
    {
        Reader { sheet, at: 0 }
    }

    // The reader behind its next n lines.
    pub fn skip(self, n: usize) -> Reader<'a>
        ensures { (result.sheet ≡ self.entry.sheet) × (result.at ≡ place_after self.entry.sheet.now self.entry.at n) }
    {
        Reader {
            at: place_after(self.sheet, self.at, n),
            ..self
        }
    }

    // The line at the reader's place.
    pub fn line(self) -> &'a [u8]
        ensures { result.now ≡ line_from self.entry.sheet.now self.entry.at }
    {
        line_at(self.sheet, self.at)
    }
}

// The line behind the first k lines of a sheet; empty where the sheet has no more.
pub fn line_numbered(sheet: &[u8], k: usize) -> &[u8]
    ensures { result.now ≡ line_numbered sheet.now k }
{
    Reader::new(sheet).skip(k).line()
}
