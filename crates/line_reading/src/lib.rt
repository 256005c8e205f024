// A line of a sheet, by its first word.
#![tactic(auto)]

ghost use Rattle.std.specs.Prelude.{◌≡◌};
ghost use Rattle.text.specs.Place.{field_at};
ghost use Rattle.line.specs.Read.{Reads, line_reading, kind_reading, later_kind};

use array_lines::array_line;
use atomic_lines::{bits_line, int_line, real_line};
use line::{ReadLine, plain};
use row_lines::{comp_line, enum_line, member_line, value_line};
use text::{field_end, word_at};

// The line at a place, of a kind that read_line leaves, where the first word ended at q.
fn later_line(s: &[u8], at: usize, q: usize) -> Option<ReadLine>
    ensures { Reads s.now result (kind_reading s.now q (later_kind (field_at s.now at))) }
{
    if word_at(s, at, b"value") {
        return plain(value_line(s, q));
    }
    if word_at(s, at, b"comp") {
        return plain(comp_line(s, q));
    }
    if word_at(s, at, b"member") {
        return plain(member_line(s, q));
    }
    if word_at(s, at, b"array") {
        return array_line(s, q);
    }
    None
}

// The line at a place, up to its byte 10.
pub fn read_line(s: &[u8], at: usize) -> Option<ReadLine>
    ensures { Reads s.now result (line_reading s.now at) }
{
    let q = field_end(s, at);
    if word_at(s, at, b"int") {
        return plain(int_line(s, q));
    }
    if word_at(s, at, b"bits") {
        return plain(bits_line(s, q));
    }
    if word_at(s, at, b"real") {
        return plain(real_line(s, q));
    }
    if word_at(s, at, b"enum") {
        return plain(enum_line(s, q));
    }
    later_line(s, at, q)
}
