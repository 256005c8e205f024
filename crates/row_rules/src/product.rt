// The size of an array.
ghost use Rattle.std.specs.Prelude.{◌≡◌, ◌<◌};
ghost use Rattle.sheet_steps.specs.Steps.{total_of};

// An array has at most so many bytes.
const MOST_BYTES: usize = 4096;

// The dimensions' product times size, factor by factor, so that nothing wraps; none where it is above an array's bytes. A dimension of 0 ends them.
pub fn total(dims: [u32; 4], size: usize) -> Option<u32>
    requires { size < 4294967296 }
    ensures { result ≡ total_of dims size }
{
    let mut p = size;
    for d in dims {
        if MOST_BYTES < p {
            return None;
        }
        if d == 0 {
            return Some(p as u32);
        }
        p *= d as usize;
    }
    if MOST_BYTES < p { None } else { Some(p as u32) }
}
