// The lines of an enum and a compound with their values and members, from behind their first word.
#![tactic(auto)]

ghost use Rattle.std.specs.Prelude.{option_map};
ghost use Rattle.line.specs.Line.{enum_line_of, value_line_of, compound_line_of, member_line_of};
ghost use Rattle.line.specs.Read.{Reads, columns_reading, plain_line};

use line::Line;
use line_columns::{name_column, next_line, number_column, whole_column, word_column};

pub fn enum_line(s: &[u8], q: usize) -> Option<Line>
    ensures { Reads s.now (option_map plain_line result) (columns_reading s.now q enum_line_of) }
{
    let Some(base) = number_column(s, q) else {
        return None;
    };
    let Some(next) = next_line(s, base.end) else {
        return None;
    };
    Some(Line::Enum(base.value, next))
}

pub fn value_line(s: &[u8], q: usize) -> Option<Line>
    ensures { Reads s.now (option_map plain_line result) (columns_reading s.now q value_line_of) }
{
    let Some(name) = name_column(s, q) else {
        return None;
    };
    let Some(number) = whole_column(s, name.end) else {
        return None;
    };
    let Some(next) = next_line(s, number.end) else {
        return None;
    };
    Some(Line::Value(
        name.start,
        name.end,
        number.value.negative,
        number.value.distance,
        next,
    ))
}

pub fn comp_line(s: &[u8], q: usize) -> Option<Line>
    ensures { Reads s.now (option_map plain_line result) (columns_reading s.now q compound_line_of) }
{
    let Some(size) = number_column(s, q) else {
        return None;
    };
    let Some(next) = next_line(s, size.end) else {
        return None;
    };
    Some(Line::Compound(size.value, next))
}

pub fn member_line(s: &[u8], q: usize) -> Option<Line>
    ensures { Reads s.now (option_map plain_line result) (columns_reading s.now q member_line_of) }
{
    let Some(name) = name_column(s, q) else {
        return None;
    };
    let Some(offset) = number_column(s, name.end) else {
        return None;
    };
    let Some(kind) = number_column(s, offset.end) else {
        return None;
    };
    let Some(word) = word_column(s, kind.end) else {
        return None;
    };
    let Some(next) = next_line(s, word.end) else {
        return None;
    };
    Some(Line::Member(
        name.start,
        name.end,
        offset.value,
        kind.value,
        word.value,
        next,
    ))
}
