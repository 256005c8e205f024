// Records `from` up to `to` of two logs, the last not among them: the length of their lines, and the lines themselves. They are first compared together, by a conversion; where they may differ, one
// by one; and where one may differ, leaf by leaf.
#![tactic(auto)]

ghost use Rattle.std.specs.Prelude.{◌≡◌, true, List, [], ℕ, ◌+◌, ◌*◌, ◌-◌, ◌≤◌, ◌<◌, length};
ghost use Rattle.text.specs.Written.{Wrote};
ghost use Rattle.comparing.specs.Comparing.{TwoLogs, text_between};

use alike_records::records_alike;
use comparing::Logs;
use record_compare::{put_record, record_len};

// Whether a conversion tells that these records have no difference.
fn block_alike(
    x: Logs,
    from: usize,
    to: usize,
    staging: &mut [u8],
    first: &[u8],
    second: &[u8],
    plan: &[u32],
    first_half: &[u32],
    second_half: &[u32],
    words: &[u32],
) -> bool
    requires { ((ss : List ℕ) × ((ds : List ℕ) × TwoLogs x (length first.now) (length second.now) ss first_half.now ds second_half.now plan.now words.now)) × (from ≤ to) × (to ≤ x.count) × ((to - from) * x.second_size ≤ length staging.old) }
    ensures { (ss ds : List ℕ) (g : TwoLogs x (length first.now) (length second.now) ss first_half.now ds second_half.now plan.now words.now) → result ≡ true → text_between g first.now second.now from to ≡ [] }
{
    let first_size = x.first_size;
    let second_size = x.second_size;
    records_alike(
        &first[from * first_size..],
        &second[from * second_size..],
        staging,
        to - from,
        first_size,
        second_size,
        plan,
        x.entries,
        first_half,
        second_half,
        words,
    )
}

// The length of the lines of record i.
fn one_len(
    x: Logs,
    i: usize,
    staging: &mut [u8],
    first: &[u8],
    second: &[u8],
    plan: &[u32],
    first_sheet: &[u8],
    second_sheet: &[u8],
    first_half: &[u32],
    second_half: &[u32],
    words: &[u32],
) -> usize
    requires { TwoLogs x (length first.now) (length second.now) first_sheet.now first_half.now second_sheet.now second_half.now plan.now words.now × (i < x.count) × (x.second_size ≤ length staging.old) }
    ensures { ((g : TwoLogs x (length first.now) (length second.now) first_sheet.now first_half.now second_sheet.now second_half.now plan.now words.now) → result ≡ length (text_between g first.now second.now i (i + 1))) × (result ≤ 344064) }
{
    let first_size = x.first_size;
    let second_size = x.second_size;
    if block_alike(
        x,
        i,
        i + 1,
        staging,
        first,
        second,
        plan,
        first_half,
        second_half,
        words,
    ) {
        return 0;
    }
    record_len(
        i,
        &first[i * first_size..],
        &second[i * second_size..],
        plan,
        x.entries,
        first_sheet,
        second_sheet,
        first_half,
        second_half,
    )
}

// The length of the lines of these records.
pub fn block_len(
    x: Logs,
    from: usize,
    to: usize,
    staging: &mut [u8],
    first: &[u8],
    second: &[u8],
    plan: &[u32],
    first_sheet: &[u8],
    second_sheet: &[u8],
    first_half: &[u32],
    second_half: &[u32],
    words: &[u32],
) -> usize
    requires { TwoLogs x (length first.now) (length second.now) first_sheet.now first_half.now second_sheet.now second_half.now plan.now words.now × (from ≤ to) × (to ≤ x.count) × ((to - from) * x.second_size ≤ length staging.old) × (x.second_size ≤ length staging.old) }
    ensures { ((g : TwoLogs x (length first.now) (length second.now) first_sheet.now first_half.now second_sheet.now second_half.now plan.now words.now) → result ≡ length (text_between g first.now second.now from to)) × (result ≤ 344064 * (to - from)) }
{
    if block_alike(
        x,
        from,
        to,
        staging,
        first,
        second,
        plan,
        first_half,
        second_half,
        words,
    ) {
        return 0;
    }
    let mut len: usize = 0;
    for i in from..to {
        len += one_len(
            x,
            i,
            staging,
            first,
            second,
            plan,
            first_sheet,
            second_sheet,
            first_half,
            second_half,
            words,
        );
    }
    len
}

// Writes the lines of record k, and answers the next place.
fn put_one(
    x: Logs,
    k: usize,
    list: &mut [u8],
    at: usize,
    staging: &mut [u8],
    first: &[u8],
    second: &[u8],
    plan: &[u32],
    first_sheet: &[u8],
    second_sheet: &[u8],
    first_half: &[u32],
    second_half: &[u32],
    words: &[u32],
) -> usize
    requires { TwoLogs x (length first.now) (length second.now) first_sheet.now first_half.now second_sheet.now second_half.now plan.now words.now × (k < x.count) × (x.second_size ≤ length staging.old) × ((g : TwoLogs x (length first.now) (length second.now) first_sheet.now first_half.now second_sheet.now second_half.now plan.now words.now) → at + length (text_between g first.now second.now k (k + 1)) ≤ length list.old) }
    ensures { (g : TwoLogs x (length first.now) (length second.now) first_sheet.now first_half.now second_sheet.now second_half.now plan.now words.now) → Wrote list.old at (text_between g first.now second.now k (k + 1)) list.new result }
{
    let first_size = x.first_size;
    let second_size = x.second_size;
    if block_alike(
        x,
        k,
        k + 1,
        staging,
        first,
        second,
        plan,
        first_half,
        second_half,
        words,
    ) {
        return at;
    }
    put_record(
        list,
        at,
        k,
        &first[k * first_size..],
        &second[k * second_size..],
        plan,
        x.entries,
        first_sheet,
        second_sheet,
        first_half,
        second_half,
    )
}

// Writes the lines of these records, and answers the next place.
pub fn put_block(
    x: Logs,
    from: usize,
    to: usize,
    list: &mut [u8],
    at: usize,
    staging: &mut [u8],
    first: &[u8],
    second: &[u8],
    plan: &[u32],
    first_sheet: &[u8],
    second_sheet: &[u8],
    first_half: &[u32],
    second_half: &[u32],
    words: &[u32],
) -> usize
    requires { TwoLogs x (length first.now) (length second.now) first_sheet.now first_half.now second_sheet.now second_half.now plan.now words.now × (from ≤ to) × (to ≤ x.count) × ((to - from) * x.second_size ≤ length staging.old) × (x.second_size ≤ length staging.old) × ((g : TwoLogs x (length first.now) (length second.now) first_sheet.now first_half.now second_sheet.now second_half.now plan.now words.now) → at + length (text_between g first.now second.now from to) ≤ length list.old) }
    ensures { (g : TwoLogs x (length first.now) (length second.now) first_sheet.now first_half.now second_sheet.now second_half.now plan.now words.now) → Wrote list.old at (text_between g first.now second.now from to) list.new result }
{
    if block_alike(
        x,
        from,
        to,
        staging,
        first,
        second,
        plan,
        first_half,
        second_half,
        words,
    ) {
        return at;
    }
    let mut next = at;
    for k in from..to {
        next = put_one(
            x,
            k,
            list,
            next,
            staging,
            first,
            second,
            plan,
            first_sheet,
            second_sheet,
            first_half,
            second_half,
            words,
        );
    }
    next
}
