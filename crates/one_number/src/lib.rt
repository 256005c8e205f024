// Reads one number in a place of some bytes; and reads, fits and stores one.
#![tactic(auto)]

ghost use Rattle.std.specs.Prelude.{◌≡◌, ◌+◌, ◌≤◌, length};
ghost use Rattle.layout.specs.Layout.{Valid};
ghost use Rattle.number.specs.Place.{stored};
ghost use Rattle.number.specs.Number.{number_at, fitted};
ghost use Rattle.number.specs.Parts.{meaning};

use bits::ByteAt;
use layout::Layout;
use number::{Number, sign};

// The number in l's place at byte at of s.
pub fn read(s: &[u8], at: ByteAt, l: Layout) -> Number
    requires { Valid l × (at.0 + l.size.0 ≤ length s.now) }
    ensures { meaning result ≡ number_at l at.0 s.now }
{
    sign::number_of(l.signed, l.precision, placing::raw_at(s, at, l))
}

// Converts the number in l's place at byte at of s into m's place at byte to of d. The kind of exception is returned.
pub fn convert(s: &[u8], at: ByteAt, l: Layout, d: &mut [u8], to: ByteAt, m: Layout) -> u32
    requires { Valid l × Valid m × (at.0 + l.size.0 ≤ length s.now) × (to.0 + m.size.0 ≤ length d.old) }
    ensures { (result ≡ (fitted m (number_at l at.0 s.now)).kind) × (d.new ≡ stored m to.0 (fitted m (number_at l at.0 s.now)).raw d.old) }
{
    let f = fitting::fit_raw(l, m, placing::raw_at(s, at, l));
    placing::store(d, to, m, f.raw);
    f.kind
}
