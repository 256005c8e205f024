// Bytes copied and cleared.
ghost use Rattle.std.specs.Prelude.{◌≡◌, ◌++◌, ◌≤◌, length, take, drop, replicate};

// The first n bytes of src go to the start of dst.
pub fn copy_bytes(dst: &mut [u8], src: &[u8], n: usize)
    requires { (n ≤ length src.now) × (n ≤ length dst.old) }
    ensures { dst.new ≡ take n src.now ++ drop n dst.old }
{
    // not by the slice's own method, for which the archive would need `memmove` from outside
    for j in 0..n {
        dst[j] = src[j];
    }
}

// The first n bytes of dst become zero.
pub fn clear_bytes(dst: &mut [u8], n: usize)
    requires { n ≤ length dst.old }
    ensures { dst.new ≡ replicate n 0 ++ drop n dst.old }
{
    dst[..n].fill(0);
}
