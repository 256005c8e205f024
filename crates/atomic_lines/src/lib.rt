// The columns of a layout, and the lines of an int, of a bits and of a real from behind their first word.
#![tactic(auto)]

ghost use Rattle.std.specs.Prelude.{◌≡◌, option_map};
ghost use Rattle.line.specs.Line.{int_line, bits_line, real_line_of};
ghost use Rattle.line.specs.Column.{layout_at};
ghost use Rattle.line.specs.Read.{Reads, columns_reading, plain_line};

use bits::{BitAt, ByteAt};
use layout::{Class, Layout};
use line::Line;
use line_columns::{next_line, number_column, order_column, pad_column, sign_column};
use text::Field;

// Size, order, offset, precision, lsb and msb: an unsigned layout.
fn layout_columns(s: &[u8], q: usize, class: Class) -> Option<Field<Layout>>
    ensures { result ≡ layout_at class s.now q }
{
    let Some(size) = number_column(s, q) else {
        return None;
    };
    let Some(order) = order_column(s, size.end) else {
        return None;
    };
    let Some(offset) = number_column(s, order.end) else {
        return None;
    };
    let Some(precision) = number_column(s, offset.end) else {
        return None;
    };
    let Some(lsb) = pad_column(s, precision.end) else {
        return None;
    };
    let Some(msb) = pad_column(s, lsb.end) else {
        return None;
    };
    let value = Layout {
        class,
        size: ByteAt(size.value as usize),
        order: order.value,
        offset: BitAt(offset.value),
        precision: precision.value,
        lsb: lsb.value,
        msb: msb.value,
        signed: false,
    };
    let end = msb.end;
    Some(Field { value, end })
}

pub fn int_line(s: &[u8], q: usize) -> Option<Line>
    ensures { Reads s.now (option_map plain_line result) (columns_reading s.now q int_line) }
{
    let Some(layout) = layout_columns(s, q, Class::Int) else {
        return None;
    };
    let Some(sign) = sign_column(s, layout.end) else {
        return None;
    };
    let Some(next) = next_line(s, sign.end) else {
        return None;
    };
    let layout = Layout {
        signed: sign.value,
        ..layout.value
    };
    Some(Line::Atomic(layout, next))
}

pub fn bits_line(s: &[u8], q: usize) -> Option<Line>
    ensures { Reads s.now (option_map plain_line result) (columns_reading s.now q bits_line) }
{
    let Some(layout) = layout_columns(s, q, Class::Bits) else {
        return None;
    };
    let Some(next) = next_line(s, layout.end) else {
        return None;
    };
    Some(Line::Atomic(layout.value, next))
}

pub fn real_line(s: &[u8], q: usize) -> Option<Line>
    ensures { Reads s.now (option_map plain_line result) (columns_reading s.now q real_line_of) }
{
    let Some(size) = number_column(s, q) else {
        return None;
    };
    let Some(order) = order_column(s, size.end) else {
        return None;
    };
    let Some(next) = next_line(s, order.end) else {
        return None;
    };
    Some(Line::Real(size.value, order.value, next))
}
