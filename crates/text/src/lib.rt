// Text as bytes: its lines, its fields and what they say, numbers in decimal, bytes written to a place. The code reads words and names at a place.
#![tactic(auto)]

ghost use Rattle.std.specs.Prelude.{◌≡◌, ◌<◌};
ghost use Rattle.text.specs.Field.{is_printable, each_printable, is_name};
ghost use Rattle.text.specs.Place.{ends_field, field_at, field_end, byte_at, tab_at, newline_at, name_at, same_bytes};

// What a field says, and where it ends.
#[derive(Clone, Copy)]
pub struct Field<T> {
    pub value: T,
    pub end: usize,
}

// An enum's number: whether it is negative, and its distance from 0, or from -1 where it is negative.
#[derive(Clone, Copy)]
pub struct Whole {
    pub negative: bool,
    pub distance: u64,
}

// Whether the byte b stands at a place.
pub fn is_byte(s: &[u8], at: usize, b: u8) -> bool
    requires { 0 < b }
    ensures { result ≡ byte_at s.now at b }
{
    at < s.len() && s[at] == b
}

pub fn is_tab(s: &[u8], at: usize) -> bool
    ensures { result ≡ tab_at s.now at }
{
    is_byte(s, at, b'\t')
}

pub fn is_newline(s: &[u8], at: usize) -> bool
    ensures { result ≡ newline_at s.now at }
{
    is_byte(s, at, b'\n')
}

// Whether a byte ends a field.
fn ends(b: u8) -> bool
    ensures { result ≡ ends_field b }
{
    b == b'\t' || b == b'\n'
}

// Where the field at a place ends.
pub fn field_end(s: &[u8], at: usize) -> usize
    ensures { result ≡ field_end s.now at }
{
    for i in at..s.len() {
        if ends(s[i]) {
            return i;
        }
    }
    at.max(s.len())
}

// The field at a place.
pub fn field_at(s: &[u8], at: usize) -> &[u8]
    ensures { result.now ≡ field_at s.now at }
{
    s.get(at..field_end(s, at)).unwrap_or_default()
}

// Whether the field at a place is the word w.
pub fn word_at(s: &[u8], at: usize, w: &[u8]) -> bool
    ensures { result ≡ same_bytes (field_at s.now at) w.now }
{
    field_at(s, at) == w
}

// Whether a byte may stand in a name.
fn is_printable(b: u8) -> bool
    ensures { result ≡ is_printable b }
{
    (33..=126).contains(&b)
}

#[tactic(auto, unfolding(crate::specs::Field::each_printable))]
fn each_printable(f: &[u8]) -> bool
    ensures { result ≡ each_printable f.now }
{
    f.iter().all(|b| is_printable(*b))
}

// Whether a field is a name.
fn is_name(f: &[u8]) -> bool
    ensures { result ≡ is_name f.now }
{
    1 <= f.len() && f.len() <= 31 && each_printable(f)
}

// Where the name at a place ends: its bytes are those up to the field's end.
pub fn name_at(s: &[u8], at: usize) -> Option<usize>
    ensures { result ≡ name_at s.now at }
{
    let name = field_at(s, at);
    is_name(name).then_some(at + name.len())
}
