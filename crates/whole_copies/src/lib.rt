// Records that stay as they are.
#![tactic(auto)]

ghost use Rattle.std.specs.Prelude.{◌≡◌, true, ◌*◌, ◌≤◌, length};
ghost use Rattle.whole_copies.specs.Whole.{WholeCopy};

use same_bytes::run_from;

// Whether the entries are all of the record, on both sides, and each stays as it is.
pub fn is_whole_copy(
    plan: &[u32],
    entries: usize,
    source_size: usize,
    destination_size: usize,
    source_half: &[u32],
    destination_half: &[u32],
) -> bool
    requires { (2 * entries ≤ length plan.now) × (entries ≤ 4096) }
    ensures { result ≡ true → WholeCopy source_size destination_size plan.now entries source_half.now destination_half.now }
{
    if source_size == destination_size {
        let run = run_from(plan, 0, entries, 0, 0, source_half, destination_half);
        if run.entries == entries {
            return run.bytes == source_size;
        }
    }
    false
}
