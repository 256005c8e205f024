// Numbers in the fields of a text, read at a place.
#![tactic(auto)]

ghost use Rattle.std.specs.Prelude.{◌≡◌, ◌≤◌};
ghost use Rattle.text.specs.Place.{number_at, whole_at};
ghost use Rattle.text_numbers.specs.Limited.{decimal_at};

use text::{Field, Whole, field_end, is_byte};

// The decimal number of a field, where it is at most limit.
fn decimal_at(s: &[u8], at: usize, limit: u64) -> Option<Field<u64>>
    requires { 9 ≤ limit }
    ensures { result ≡ decimal_at limit s.now at }
{
    let end = field_end(s, at);
    if end == at {
        return None;
    }
    if s[at] == b'0' {
        return (end - at == 1).then_some(Field { value: 0, end });
    }
    let mut value: u64 = 0;
    for i in at..end {
        let b = s[i];
        if !b.is_ascii_digit() {
            return None;
        }
        let digit = u64::from(b - b'0');
        if (limit - digit) / 10 < value {
            return None;
        }
        value = value * 10 + digit;
    }
    Some(Field { value, end })
}

// The number at a place: at most 4,294,967,295.
pub fn number_at(s: &[u8], at: usize) -> Option<Field<u32>>
    ensures { result ≡ number_at s.now at }
{
    let Field { value, end } = decimal_at(s, at, 4294967295)?;
    let value = value as u32;
    Some(Field { value, end })
}

// The number of an enum's value at a place: from -2^63 up to 2^64 - 1.
pub fn whole_at(s: &[u8], at: usize) -> Option<Field<Whole>>
    ensures { result ≡ whole_at s.now at }
{
    if is_byte(s, at, b'-') {
        let Field { value, end } = decimal_at(s, at + 1, 9223372036854775808)?;
        if value == 0 {
            return None;
        }
        let value = Whole {
            negative: true,
            distance: value - 1,
        };
        return Some(Field { value, end });
    }
    let Field { value, end } = decimal_at(s, at, 18446744073709551615)?;
    let value = Whole {
        negative: false,
        distance: value,
    };
    Some(Field { value, end })
}
