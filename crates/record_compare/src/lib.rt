// One record of two logs, by the plan's entries: the length of its lines, and the lines themselves.
#![tactic(auto)]

ghost use Rattle.std.specs.Prelude.{◌≡◌, ◌+◌, ◌≤◌, length};
ghost use Rattle.text.specs.Written.{Wrote};
ghost use Rattle.comparing.specs.Comparing.{EntryFormed, EntriesFormed, entry_text, record_text};

use difference_text::{line_len, put_line};
use leaf_compare::compare_leaf;
use plan_words::entry;
use plans::PlanEntry;

// The length of the line of entry e: 0 where its numbers are the same.
fn entry_len(
    index: usize,
    e: PlanEntry,
    first: &[u8],
    second: &[u8],
    first_sheet: &[u8],
    second_sheet: &[u8],
    first_half: &[u32],
    second_half: &[u32],
) -> usize
    requires { EntryFormed (length first.now) (length second.now) e first_sheet.now first_half.now second_sheet.now second_half.now }
    ensures { (result ≡ length (entry_text index first.now second.now e first_sheet.now first_half.now second_sheet.now second_half.now)) × (result ≤ 84) }
{
    let Some(numbers) = compare_leaf(
        e,
        first,
        second,
        first_sheet,
        second_sheet,
        first_half,
        second_half,
    ) else {
        return 0;
    };
    line_len(index, e.to, numbers.first, numbers.second)
}

// The length of the lines of record `index`, which first and second begin with.
pub fn record_len(
    index: usize,
    first: &[u8],
    second: &[u8],
    plan: &[u32],
    entries: usize,
    first_sheet: &[u8],
    second_sheet: &[u8],
    first_half: &[u32],
    second_half: &[u32],
) -> usize
    requires { EntriesFormed (length first.now) (length second.now) plan.now entries first_sheet.now first_half.now second_sheet.now second_half.now }
    ensures { (result ≡ length (record_text index first.now second.now plan.now entries first_sheet.now first_half.now second_sheet.now second_half.now)) × (result ≤ 344064) }
{
    let mut len: usize = 0;
    for i in 0..entries {
        let e = entry(plan, i);
        len += entry_len(
            index,
            e,
            first,
            second,
            first_sheet,
            second_sheet,
            first_half,
            second_half,
        );
    }
    len
}

// Writes the line of entry e, where its numbers differ, and answers the next place.
fn put_entry(
    list: &mut [u8],
    at: usize,
    index: usize,
    e: PlanEntry,
    first: &[u8],
    second: &[u8],
    first_sheet: &[u8],
    second_sheet: &[u8],
    first_half: &[u32],
    second_half: &[u32],
) -> usize
    requires { EntryFormed (length first.now) (length second.now) e first_sheet.now first_half.now second_sheet.now second_half.now × (at + length (entry_text index first.now second.now e first_sheet.now first_half.now second_sheet.now second_half.now) ≤ length list.old) }
    ensures { Wrote list.old at (entry_text index first.now second.now e first_sheet.now first_half.now second_sheet.now second_half.now) list.new result }
{
    let Some(numbers) = compare_leaf(
        e,
        first,
        second,
        first_sheet,
        second_sheet,
        first_half,
        second_half,
    ) else {
        return at;
    };
    put_line(list, at, index, e.to, numbers.first, numbers.second)
}

// Writes the lines of record `index`, and answers the next place.
pub fn put_record(
    list: &mut [u8],
    at: usize,
    index: usize,
    first: &[u8],
    second: &[u8],
    plan: &[u32],
    entries: usize,
    first_sheet: &[u8],
    second_sheet: &[u8],
    first_half: &[u32],
    second_half: &[u32],
) -> usize
    requires { EntriesFormed (length first.now) (length second.now) plan.now entries first_sheet.now first_half.now second_sheet.now second_half.now × (at + length (record_text index first.now second.now plan.now entries first_sheet.now first_half.now second_sheet.now second_half.now) ≤ length list.old) }
    ensures { Wrote list.old at (record_text index first.now second.now plan.now entries first_sheet.now first_half.now second_sheet.now second_half.now) list.new result }
{
    let mut next = at;
    for k in 0..entries {
        let e = entry(plan, k);
        next = put_entry(
            list,
            next,
            index,
            e,
            first,
            second,
            first_sheet,
            second_sheet,
            first_half,
            second_half,
        );
    }
    next
}
