// Result records of which each byte is written, whatever was there.
#![tactic(auto)]

ghost use Rattle.std.specs.Prelude.{◌≡◌, true, ◌*◌, ◌≤◌, ◌<◌, length};
ghost use Rattle.whole_writes.specs.Writes.{Anew, WritesEach};

use bits::{ByteAt, bits_of};
use layout::size_allowed;
use plan_words::entry;
use table::read::type_word;
use table::{LSB, MSB, OFFSET, PRECISION, SIZE};

// The word of a pad that keeps what is there.
const KEEP: usize = 2;

// Whether a pad keeps none of the bits from one on up to another: they are zero or one, or there are none.
fn keeps_none(pad: usize, from: usize, end: usize) -> bool
    ensures { result ≡ true → 2 ≤ pad → from ≡ end }
{
    if pad < KEEP {
        return true;
    }
    from == end
}

// The bytes of a type whose write keeps no bit of what was there; 0 for any other.
fn bytes_anew(half: &[u32], type_number: usize) -> usize
    ensures { (1 ≤ result → Anew half.now type_number result) × (result < 4294967296) }
{
    let size = ByteAt(type_word(half, type_number, SIZE));
    if !size_allowed(size) {
        return 0;
    }
    let whole = bits_of(size);
    let offset = type_word(half, type_number, OFFSET);
    let precision = type_word(half, type_number, PRECISION);
    let below = type_word(half, type_number, LSB);
    let above = type_word(half, type_number, MSB);
    if keeps_none(below, 0, offset) {
        if keeps_none(above, offset + precision, whole.0 as usize) {
            return size.0;
        }
    }
    0
}

// Whether the entries write each byte of a destination record: from the last one down, each ends where the one behind it begins.
pub fn writes_each_byte(
    plan: &[u32],
    entries: usize,
    destination_size: usize,
    destination_half: &[u32],
) -> bool
    requires { 2 * entries ≤ length plan.now }
    ensures { result ≡ true → WritesEach destination_size plan.now entries destination_half.now }
{
    let mut end = destination_size;
    for i in (0..entries).rev() {
        let e = entry(plan, i);
        let bytes = bytes_anew(destination_half, e.destination);
        if bytes == 0 {
            return false;
        }
        if e.to + bytes != end {
            return false;
        }
        end = e.to;
    }
    end == 0
}
