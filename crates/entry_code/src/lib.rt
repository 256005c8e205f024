// The packed word of an entry, apart and together.
#![tactic(auto)]

ghost use Rattle.std.specs.Prelude.{◌≡◌, ◌≤◌, ◌<◌};
ghost use Rattle.entry_code.specs.Code.{packed, route_in, shift_in, precision_in, size_in, order_in, bits_in};

// Routes: how the leaf of an entry is converted.
pub const GENERAL: usize = 0;

pub const EASY_LE: usize = 1;

pub const EASY_BE: usize = 2;

pub const REAL: usize = 3;

pub const SPAN_LE: usize = 4;

pub const SPAN_BE: usize = 5;

pub const SPAN: usize = 6;

pub const LOOKED_UP: usize = 7;

// The words of an entry: the packed word, and three more, which go by the route.
pub const SECOND: usize = 1;

pub const THIRD: usize = 2;

pub const FOURTH: usize = 3;

// Of an easy pair: the two halves of its carry.
pub const CARRY_LOW: usize = 1;

pub const CARRY_HIGH: usize = 2;

// Of a span: its lowest significant bits, how many from there on, and the word at which its rows begin.
pub const SPAN_LOW: usize = 1;

pub const SPAN_COUNT: usize = 2;

pub const SPAN_ROWS: usize = 3;

pub fn route_in(code: usize) -> usize
    ensures { (result ≡ route_in code) × (result < 8) }
{
    code % 8
}

pub fn shift_in(code: usize) -> u32
    ensures { (result ≡ shift_in code) × (result < 64) }
{
    (code / 8 % 64) as u32
}

pub fn precision_in(code: usize) -> u32
    ensures { (result ≡ precision_in code) × (result < 128) }
{
    (code / 512 % 128) as u32
}

pub fn size_in(code: usize) -> usize
    ensures { (result ≡ size_in code) × (result < 16) }
{
    code / 65536 % 16
}

pub fn order_in(code: usize) -> usize
    ensures { (result ≡ order_in code) × (result < 2) }
{
    code / 1048576 % 2
}

// The destination's precision stands highest.
pub fn bits_in(code: usize) -> u32
    requires { code < 4294967296 }
    ensures { (result ≡ bits_in code) × (result < 2048) }
{
    (code / 2097152) as u32
}

pub fn pack(route: u32, shift: u32, precision: u32, size: u32, order: u32, bits: u32) -> u32
    requires { (route < 8) × (shift < 64) × (precision ≤ 64) × (size ≤ 8) × (order ≤ 1) × (bits ≤ 64) }
    ensures { result ≡ packed route shift precision size order bits }
{
    route + 8 * shift + 512 * precision + 65536 * size + 1048576 * order + 2097152 * bits
}
