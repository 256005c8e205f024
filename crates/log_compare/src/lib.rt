// The list of the differences of two logs: its length, and the list itself, by blocks of records.
#![tactic(auto)]

ghost use Rattle.std.specs.Prelude.{◌≡◌, ◌*◌, ◌-◌, ◌≤◌, ◌<◌, length};
ghost use Rattle.text.specs.Written.{Wrote};
ghost use Rattle.comparing.specs.Comparing.{TwoLogs, text_of};

use block_compare::{block_len, put_block};
use comparing::Logs;
use difference_text::{HEADER, put_header};

// The bytes in which records are converted.
const STAGING: usize = 4096;

// The end of the block that begins at record `from`: a block has as many records as can be converted at once.
fn block_end(from: usize, count: usize, second_size: usize) -> usize
    requires { (from < count) × (1 ≤ second_size) × (second_size ≤ 4096) }
    ensures { (from < result) × (result ≤ count) × ((result - from) * second_size ≤ 4096) }
{
    let most = STAGING / second_size;
    if most < count - from {
        return from + most;
    }
    count
}

// The length of the list.
pub fn list_len(
    x: Logs,
    first: &[u8],
    second: &[u8],
    plan: &[u32],
    first_sheet: &[u8],
    second_sheet: &[u8],
    first_half: &[u32],
    second_half: &[u32],
    words: &[u32],
) -> usize
    requires { TwoLogs x (length first.now) (length second.now) first_sheet.now first_half.now second_sheet.now second_half.now plan.now words.now }
    ensures { (g : TwoLogs x (length first.now) (length second.now) first_sheet.now first_half.now second_sheet.now second_half.now plan.now words.now) → result ≡ length (text_of g first.now second.now) }
{
    let count = x.count;
    let mut staging = [0u8; STAGING];
    let mut len = HEADER;
    let mut i: usize = 0;
    // A step is a block, of which the last may be shorter: a range with a step would say that no more plainly.
    while i < count {
        let to = block_end(i, count, x.second_size);
        len += block_len(
            x,
            i,
            to,
            &mut staging,
            first,
            second,
            plan,
            first_sheet,
            second_sheet,
            first_half,
            second_half,
            words,
        );
        i = to;
    }
    len
}

// Writes the list, and answers its length.
pub fn put_list(
    x: Logs,
    list: &mut [u8],
    first: &[u8],
    second: &[u8],
    plan: &[u32],
    first_sheet: &[u8],
    second_sheet: &[u8],
    first_half: &[u32],
    second_half: &[u32],
    words: &[u32],
) -> usize
    requires { TwoLogs x (length first.now) (length second.now) first_sheet.now first_half.now second_sheet.now second_half.now plan.now words.now × ((g : TwoLogs x (length first.now) (length second.now) first_sheet.now first_half.now second_sheet.now second_half.now plan.now words.now) → length (text_of g first.now second.now) ≤ length list.old) }
    ensures { (g : TwoLogs x (length first.now) (length second.now) first_sheet.now first_half.now second_sheet.now second_half.now plan.now words.now) → Wrote list.old 0 (text_of g first.now second.now) list.new result }
{
    let count = x.count;
    let mut staging = [0u8; STAGING];
    let mut at = put_header(list);
    let mut k: usize = 0;
    // By blocks, as above.
    while k < count {
        let to = block_end(k, count, x.second_size);
        at = put_block(
            x,
            k,
            to,
            list,
            at,
            &mut staging,
            first,
            second,
            plan,
            first_sheet,
            second_sheet,
            first_half,
            second_half,
            words,
        );
        k = to;
    }
    at
}
