// The numbers that stand in a record for a layout's words.
ghost use Rattle.std.specs.Prelude.{◌≡◌};
ghost use Rattle.table.specs.Table.{order_of, pad_of, flag_of, class_of, word_of};
ghost use Rattle.table.specs.Records.{order_code, pad_code, flag_code, class_code, word_code};

use bits::Order;
use datatype::Word;
use layout::{Class, Pad};

pub fn order_of(k: usize) -> Order
    ensures { result ≡ order_of k }
{
    match k {
        0 => Order::LE,
        _ => Order::BE,
    }
}

pub fn pad_of(k: usize) -> Pad
    ensures { result ≡ pad_of k }
{
    match k {
        0 => Pad::Zero,
        1 => Pad::One,
        _ => Pad::Keep,
    }
}

pub fn flag_of(k: usize) -> bool
    ensures { result ≡ flag_of k }
{
    k != 0
}

pub fn class_of(k: usize) -> Class
    ensures { result ≡ class_of k }
{
    match k {
        1 => Class::Bits,
        _ => Class::Int,
    }
}

pub fn order_code(x: Order) -> u32
    ensures { result ≡ order_code x }
{
    x as u32
}

pub fn pad_code(x: Pad) -> u32
    ensures { result ≡ pad_code x }
{
    x as u32
}

pub fn flag_code(x: bool) -> u32
    ensures { result ≡ flag_code x }
{
    x as u32
}

pub fn class_code(x: Class) -> u32
    ensures { result ≡ class_code x }
{
    x as u32
}

pub fn word_of(k: usize) -> Word
    ensures { result ≡ word_of k }
{
    match k {
        0 => Word::Silent,
        1 => Word::Clamp,
        _ => Word::Stop,
    }
}

pub fn word_code(x: Word) -> u32
    ensures { result ≡ word_code x }
{
    x as u32
}
