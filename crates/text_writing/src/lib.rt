// Bytes and numbers in decimal, written to a place.
#![tactic(auto)]

ghost use Rattle.std.specs.Prelude.{◌≡◌, ◌+◌, ◌≤◌, length};
ghost use Rattle.std.proofs.Math.Seq.{paste};
ghost use Rattle.text.specs.Field.{decimal_of};

// How many digits n has.
pub fn decimal_len(n: u64) -> usize
    ensures { result ≡ length (decimal_of n) }
{
    if n == 0 { 1 } else { n.ilog10() as usize + 1 }
}

// Writes n in decimal, and answers the next place.
pub fn put_decimal(out: &mut [u8], at: usize, n: u64) -> usize
    requires { at + length (decimal_of n) ≤ length out.old }
    ensures { (result ≡ at + length (decimal_of n)) × (out.new ≡ paste out.old at (decimal_of n) (length (decimal_of n))) }
{
    let len = decimal_len(n);
    let mut m = n;
    for i in (0..len).rev() {
        out[at + i] = b'0' + (m % 10) as u8;
        m /= 10;
    }
    at + len
}

// Writes the bytes, and answers the next place.
pub fn put_bytes(out: &mut [u8], at: usize, bytes: &[u8]) -> usize
    requires { at + length bytes.now ≤ length out.old }
    ensures { (result ≡ at + length bytes.now) × (out.new ≡ paste out.old at bytes.now (length bytes.now)) }
{
    let end = at + bytes.len();
    out[at..end].copy_from_slice(bytes);
    end
}
