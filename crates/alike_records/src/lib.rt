// Records of two logs that have no difference, told by a conversion of the first log's. It is no full answer: records without a difference may yet differ in bytes that no number turns on.
#![tactic(auto)]

ghost use Rattle.std.specs.Prelude.{◌≡◌, true, cond, [], ℕ, ◌*◌, ◌≤◌, ◌<◌, eqb, length, take};
ghost use Rattle.datatype.specs.Datatype.{size, same};
ghost use Rattle.records.specs.Records.{record_at};
ghost use Rattle.plans.specs.PlanWords.{Job};
ghost use Rattle.differences.specs.Differences.{in_record};

use copy_loop::copy_records;
use loops::bytes::copy_bytes;

// 1 where two bytes differ, else what was found before them.
fn found(before: u8, x: u8, y: u8) -> u8
    ensures { result ≡ cond (eqb x y) before 1 }
{
    if x == y { before } else { 1 }
}

// The first n bytes of a are those of b. All are looked at, whatever they hold: compiled code then compares many at once.
fn same_bytes(a: &[u8], b: &[u8], n: usize) -> bool
    requires { (n ≤ length a.now) × (n ≤ length b.now) }
    ensures { result ≡ same (take n a.now) (take n b.now) }
{
    let x = &a[..n];
    let y = &b[..n];
    let mut other: u8 = 0;
    for j in 0..n {
        other = found(other, x[j], y[j]);
    }
    other == 0
}

// So many records of the first log are converted over a copy of the second log's. Where no exception was raised and no byte of the copy has changed, no matched number differs.
pub fn records_alike(
    first: &[u8],
    second: &[u8],
    staging: &mut [u8],
    count: usize,
    first_size: usize,
    second_size: usize,
    plan: &[u32],
    entries: usize,
    first_half: &[u32],
    second_half: &[u32],
    words: &[u32],
) -> bool
    requires { Job first_size second_size plan.now entries first_half.now second_half.now words.now × (count ≤ 65536) × (count * first_size ≤ length first.now) × (count * second_size ≤ length second.now) × (count * second_size ≤ length staging.old) }
    ensures { (length staging.new ≡ length staging.old) × ((j : Job first_size second_size plan.now entries first_half.now second_half.now words.now) → result ≡ true → (i k : ℕ) → i < count → in_record j.source j.destination k (record_at first_size i first.now) (record_at second_size i second.now) 0 (size j.destination) ≡ []) }
{
    let bytes = count * second_size;
    copy_bytes(staging, second, bytes);
    let raised = copy_records(
        first,
        staging,
        count,
        first_size,
        second_size,
        plan,
        entries,
        first_half,
        second_half,
        words,
    );
    if raised == 0 {
        return same_bytes(staging, second, bytes);
    }
    false
}
