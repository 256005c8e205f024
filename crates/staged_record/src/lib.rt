// One record in place: through the staging record, over its background.
#![tactic(auto)]

ghost use Rattle.std.specs.Prelude.{◌≡◌, ◌++◌, ◌+◌, ◌*◌, ◌≤◌, length, take, drop};
ghost use Rattle.plans.specs.PlanWords.{Job};
ghost use Rattle.loops.specs.Steps.{put, record_by, raised_of};

use loops::bytes::copy_bytes;
use one_record::write_record;

// The n bytes of src from byte at on go to the start of dst.
fn take_bytes(dst: &mut [u8], src: &[u8], at: usize, n: usize)
    requires { (at + n ≤ length src.now) × (n ≤ length dst.old) }
    ensures { dst.new ≡ take n (drop at src.now) ++ drop n dst.old }
{
    copy_bytes(dst, &src[at..], n);
}

// The n bytes of src from byte at on go to the same place in dst.
fn lay_bytes(dst: &mut [u8], src: &[u8], at: usize, n: usize)
    requires { (at + n ≤ length src.now) × (at + n ≤ length dst.old) }
    ensures { dst.new ≡ put at n (take n (drop at src.now)) dst.old }
{
    copy_bytes(&mut dst[at..], &src[at..], n);
}

// Source record i becomes result record i over record i of the background.
pub fn replace_record(
    buf: &mut [u8],
    background: &[u8],
    staging: &mut [u8],
    i: usize,
    source_size: usize,
    destination_size: usize,
    plan: &[u32],
    entries: usize,
    source_half: &[u32],
    destination_half: &[u32],
    words: &[u32],
) -> u64
    requires { Job source_size destination_size plan.now entries source_half.now destination_half.now words.now × (i * source_size + source_size ≤ length buf.old) × (i * destination_size + destination_size ≤ length buf.old) × (i * destination_size + destination_size ≤ length background.now) × (source_size ≤ length staging.old) }
    ensures { (j : Job source_size destination_size plan.now entries source_half.now destination_half.now words.now) → (buf.new ≡ put (i * destination_size) destination_size (record_by j (take source_size (drop (i * source_size) buf.old)) (take destination_size (drop (i * destination_size) background.now))) buf.old) × (result ≡ raised_of j (take source_size (drop (i * source_size) buf.old))) }
{
    take_bytes(staging, buf, i * source_size, source_size);
    lay_bytes(buf, background, i * destination_size, destination_size);
    write_record(
        staging,
        &mut buf[i * destination_size..],
        plan,
        entries,
        source_half,
        destination_half,
        words,
    )
}
