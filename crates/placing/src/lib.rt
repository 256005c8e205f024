// The significant bits in a place of some bytes: read, and written with the pads beside them.
#![tactic(auto)]

ghost use Rattle.std.specs.Prelude.{◌≡◌, ◌+◌, ◌*◌, ◌^◌, ◌≤◌, ◌<◌, length};
ghost use Rattle.layout.specs.Layout.{Valid};
ghost use Rattle.number.specs.Place.{padded, filled, raw_at, stored};

use bits::shift::{join, low_bits, ones, shift_right};
use bits::{ByteAt, bits_of};
use layout::{Layout, Pad};
use loading::{WINDOW, field_of, load, window};

// The significant bits in l's place at byte at of s.
pub fn raw_at(s: &[u8], at: ByteAt, l: Layout) -> u64
    requires { Valid l × (at.0 + l.size.0 ≤ length s.now) }
    ensures { (result ≡ raw_at l at.0 s.now) × (result < 2 ^ l.precision) }
{
    if WINDOW.0 <= s.len() - at.0 {
        window(s, at, l.size, l.order, l.offset, l.precision)
    } else {
        field_of(load(s, at, l.size, l.order), l.offset, l.precision)
    }
}

// width bits beside the significant ones.
fn pad_bits(pad: Pad, width: u32, g: u64) -> u64
    requires { (width ≤ 64) × (g < 2 ^ width) }
    ensures { (result ≡ padded pad width g) × (result < 2 ^ width) }
{
    match pad {
        Pad::Zero => 0,
        Pad::One => ones(width),
        Pad::Keep => g,
    }
}

// The container of raw over the background g.
fn fill(l: Layout, g: u64, raw: u64) -> u64
    requires { Valid l × (g < 2 ^ (8 * l.size.0)) × (raw < 2 ^ l.precision) }
    ensures { result ≡ filled l g raw }
{
    let end = l.offset.0 + l.precision;
    let whole = bits_of(l.size);
    let low = pad_bits(l.lsb, l.offset.0, low_bits(g, l.offset.0));
    let high = pad_bits(l.msb, whole.0 - end, shift_right(g, end));
    join(high, end, join(raw, l.offset.0, low))
}

// Writes raw to l's place at byte at of d. A pad that keeps takes d's own bits.
pub fn store(d: &mut [u8], at: ByteAt, l: Layout, raw: u64)
    requires { Valid l × (at.0 + l.size.0 ≤ length d.old) × (raw < 2 ^ l.precision) }
    ensures { d.new ≡ stored l at.0 raw d.old }
{
    let container = if l.offset.0 == 0 && l.precision == bits_of(l.size).0 {
        raw
    } else {
        fill(l, load(d, at, l.size, l.order), raw)
    };
    storing::store(d, at, l.size, l.order, container);
}
