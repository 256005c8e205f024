// A column of a line: its tab stands at q, where the field before it ended.
#![tactic(auto)]

ghost use Rattle.std.specs.Prelude.{◌≡◌};
ghost use Rattle.text.specs.Field.{number, name};
ghost use Rattle.datatype.specs.declared.Word.TheVariants.{Silent};
ghost use Rattle.line.specs.Line.{order, pad, sign, member_word};
ghost use Rattle.line.specs.Column.{column_at, optional_at, next_at, whole_number, found_whole, found_name};

use bits::Order;
use datatype::Word;
use layout::Pad;
use line::Name;
use text::{Field, Whole, field_end, is_newline, is_tab, name_at, word_at};
use text_numbers::{number_at, whole_at};

// The line ends where its last field ended: at its byte 10.
pub fn next_line(s: &[u8], q: usize) -> Option<usize>
    ensures { result ≡ next_at s.now q }
{
    if is_newline(s, q) { Some(q + 1) } else { None }
}

pub fn number_column(s: &[u8], q: usize) -> Option<Field<u32>>
    ensures { result ≡ column_at number s.now q }
{
    if !is_tab(s, q) {
        return None;
    }
    number_at(s, q + 1)
}

pub fn whole_column(s: &[u8], q: usize) -> Option<Field<Whole>>
    ensures { found_whole result ≡ column_at whole_number s.now q }
{
    if !is_tab(s, q) {
        return None;
    }
    whole_at(s, q + 1)
}

pub fn name_column(s: &[u8], q: usize) -> Option<Name>
    ensures { found_name s.now result ≡ column_at name s.now q }
{
    if !is_tab(s, q) {
        return None;
    }
    let start = q + 1;
    let end = name_at(s, start)?;
    Some(Name { start, end })
}

pub fn order_column(s: &[u8], q: usize) -> Option<Field<Order>>
    ensures { result ≡ column_at order s.now q }
{
    if !is_tab(s, q) {
        return None;
    }
    let at = q + 1;
    let end = field_end(s, at);
    if word_at(s, at, b"LE") {
        return Some(Field {
            value: Order::LE,
            end,
        });
    }
    if word_at(s, at, b"BE") {
        return Some(Field {
            value: Order::BE,
            end,
        });
    }
    None
}

pub fn pad_column(s: &[u8], q: usize) -> Option<Field<Pad>>
    ensures { result ≡ column_at pad s.now q }
{
    if !is_tab(s, q) {
        return None;
    }
    let at = q + 1;
    let end = field_end(s, at);
    if word_at(s, at, b"zero") {
        return Some(Field {
            value: Pad::Zero,
            end,
        });
    }
    if word_at(s, at, b"one") {
        return Some(Field {
            value: Pad::One,
            end,
        });
    }
    if word_at(s, at, b"keep") {
        return Some(Field {
            value: Pad::Keep,
            end,
        });
    }
    None
}

pub fn sign_column(s: &[u8], q: usize) -> Option<Field<bool>>
    ensures { result ≡ column_at sign s.now q }
{
    if !is_tab(s, q) {
        return None;
    }
    let at = q + 1;
    let end = field_end(s, at);
    if word_at(s, at, b"signed") {
        return Some(Field { value: true, end });
    }
    if word_at(s, at, b"unsigned") {
        return Some(Field { value: false, end });
    }
    None
}

// A column that a member's line may have: a member without it is silent.
pub fn word_column(s: &[u8], q: usize) -> Option<Field<Word>>
    ensures { result ≡ optional_at member_word Silent s.now q }
{
    if !is_tab(s, q) {
        return Some(Field {
            value: Word::Silent,
            end: q,
        });
    }
    let at = q + 1;
    let end = field_end(s, at);
    if word_at(s, at, b"clamp") {
        return Some(Field {
            value: Word::Clamp,
            end,
        });
    }
    if word_at(s, at, b"stop") {
        return Some(Field {
            value: Word::Stop,
            end,
        });
    }
    None
}
