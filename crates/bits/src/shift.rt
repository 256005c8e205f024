// Shifts and masks as arithmetic, whole up to 64 bits.
ghost use Rattle.std.specs.Prelude.{◌≡◌, ◌+◌, ◌-◌, ◌*◌, ◌/◌, ◌%◌, ◌^◌, ◌≤◌, ◌<◌};

// The bits of a u64.
pub const WORD_BITS: u32 = 64;

// x without its k lowest bits, also at the whole width.
pub fn shift_right(x: u64, k: u32) -> u64
    requires { k ≤ 64 }
    ensures { result ≡ x / 2 ^ k }
{
    if k == WORD_BITS { 0 } else { x >> k }
}

// 2 to the power k.
pub fn pow2(k: u32) -> u64
    requires { k < 64 }
    ensures { result ≡ 2 ^ k }
{
    1u64 << k
}

// The k lowest bits of x.
pub fn low_bits(x: u64, k: u32) -> u64
    requires { k ≤ 64 }
    ensures { (result ≡ x % 2 ^ k) × (result < 2 ^ k) }
{
    if k == WORD_BITS { x } else { x % pow2(k) }
}

// high above k low bits, where both fit.
pub fn join(high: u64, k: u32, low: u64) -> u64
    requires { (k ≤ 64) × (high * 2 ^ k + low < 2 ^ 64) }
    ensures { result ≡ high * 2 ^ k + low }
{
    if k == WORD_BITS {
        low
    } else {
        (high << k) + low
    }
}

// k bits, all set.
pub fn ones(k: u32) -> u64
    requires { k ≤ 64 }
    ensures { result ≡ 2 ^ k - 1 }
{
    if k == WORD_BITS {
        u64::MAX
    } else {
        pow2(k) - 1
    }
}
