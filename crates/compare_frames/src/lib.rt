// The list of two logs; and its plan, in arrays of the size that the call needs.
#![tactic(auto)]

ghost use Rattle.std.specs.Prelude.{false, ◌≤◌, length};
ghost use Rattle.datatype.specs.Datatype.{size};
ghost use Rattle.table.specs.Table.{type_at};
ghost use Rattle.conversion.specs.Call.{Passes};
ghost use Rattle.comparing.specs.Comparing.{TwoLogs};
ghost use Rattle.compare_frames.specs.Listed.{Leaves, list_checked};

use answer::Answer;
use comparing::Logs;
use difference_text::{HEADER, put_header};
use log_compare::{list_len, put_list};
use plan_making::make_plan;
use table::SIZE;
use table::read::type_word;

// A record of the second log of at most so many bytes goes with the small arrays.
const SMALL: usize = 128;

// Two logs that no check of theirs refuses: of so many records, which are of a type of the first sheet and of one of the second.
#[derive(Clone, Copy)]
pub struct TypedLogs {
    pub count: usize,
    pub first: usize,
    pub second: usize,
}

// Check 7 of the list, before a byte of it is written; then the list. Where nothing differs it is the header, and the logs are not gone through again.
fn list_planned(
    x: Logs,
    list: &mut [u8],
    first: &[u8],
    second: &[u8],
    plan: &[u32],
    first_sheet: &[u8],
    second_sheet: &[u8],
    first_half: &[u32],
    second_half: &[u32],
    words: &[u32],
) -> Answer
    requires { TwoLogs x (length first.now) (length second.now) first_sheet.now first_half.now second_sheet.now second_half.now plan.now words.now }
    ensures { (g : TwoLogs x (length first.now) (length second.now) first_sheet.now first_half.now second_sheet.now second_half.now plan.now words.now) → Leaves x.count first.now second.now list.old (list_checked x.count first.now second.now (length list.old) g.planned.job.source g.planned.job.destination) result list.new }
{
    let len = list_len(
        x,
        first,
        second,
        plan,
        first_sheet,
        second_sheet,
        first_half,
        second_half,
        words,
    );
    if list.len() < len {
        return Answer::Room;
    }
    if len == HEADER {
        return Answer::Done(put_header(list) as u64);
    }
    Answer::Done(put_list(
        x,
        list,
        first,
        second,
        plan,
        first_sheet,
        second_sheet,
        first_half,
        second_half,
        words,
    ) as u64)
}

// A plan of at most 128 entries. The plan is made once, and then the list goes by it.
#[inline(never)]
fn compare_small(
    x: TypedLogs,
    list: &mut [u8],
    first: &[u8],
    second: &[u8],
    first_sheet: &[u8],
    second_sheet: &[u8],
    first_half: &[u32],
    second_half: &[u32],
) -> Answer
    requires { Passes false first_sheet.now second_sheet.now x.count (length second.now) (length first.now) first_half.now x.first second_half.now x.second × (size (type_at second_half.now second_sheet.now x.second) ≤ 128) }
    ensures { Leaves x.count first.now second.now list.old (list_checked x.count first.now second.now (length list.old) (type_at first_half.now first_sheet.now x.first) (type_at second_half.now second_sheet.now x.second)) result list.new }
{
    let first_type = x.first;
    let second_type = x.second;
    let mut plan = [0u32; 256];
    let mut words = [0u32; 2048];
    let entries = make_plan(
        first_sheet,
        second_sheet,
        first_half,
        first_type,
        second_half,
        second_type,
        &mut plan,
        &mut words,
    );
    let first_size = type_word(first_half, first_type, SIZE);
    let second_size = type_word(second_half, second_type, SIZE);
    let logs = Logs {
        count: x.count,
        first_size,
        second_size,
        entries,
    };
    list_planned(
        logs,
        list,
        first,
        second,
        &plan,
        first_sheet,
        second_sheet,
        first_half,
        second_half,
        &words,
    )
}

// A plan of at most 4,096 entries. It says again what compare_small says, as convert's functions of the two sizes do.
#[inline(never)]
fn compare_large(
    x: TypedLogs,
    list: &mut [u8],
    first: &[u8],
    second: &[u8],
    first_sheet: &[u8],
    second_sheet: &[u8],
    first_half: &[u32],
    second_half: &[u32],
) -> Answer
    requires { Passes false first_sheet.now second_sheet.now x.count (length second.now) (length first.now) first_half.now x.first second_half.now x.second }
    ensures { Leaves x.count first.now second.now list.old (list_checked x.count first.now second.now (length list.old) (type_at first_half.now first_sheet.now x.first) (type_at second_half.now second_sheet.now x.second)) result list.new }
{
    let first_type = x.first;
    let second_type = x.second;
    let mut plan = [0u32; 8192];
    let mut words = [0u32; 20480];
    let entries = make_plan(
        first_sheet,
        second_sheet,
        first_half,
        first_type,
        second_half,
        second_type,
        &mut plan,
        &mut words,
    );
    let first_size = type_word(first_half, first_type, SIZE);
    let second_size = type_word(second_half, second_type, SIZE);
    let logs = Logs {
        count: x.count,
        first_size,
        second_size,
        entries,
    };
    list_planned(
        logs,
        list,
        first,
        second,
        &plan,
        first_sheet,
        second_sheet,
        first_half,
        second_half,
        &words,
    )
}

// The size of the arrays is chosen once, behind the checks. Logs of records and logs of none choose it each by themselves: one function for both would be the only caller of either size, and
// the compiler would give it, and every call, the room of both.
pub fn compare_framed(
    x: TypedLogs,
    list: &mut [u8],
    first: &[u8],
    second: &[u8],
    first_sheet: &[u8],
    second_sheet: &[u8],
    first_half: &[u32],
    second_half: &[u32],
) -> Answer
    requires { Passes false first_sheet.now second_sheet.now x.count (length second.now) (length first.now) first_half.now x.first second_half.now x.second }
    ensures { Leaves x.count first.now second.now list.old (list_checked x.count first.now second.now (length list.old) (type_at first_half.now first_sheet.now x.first) (type_at second_half.now second_sheet.now x.second)) result list.new }
{
    if type_word(second_half, x.second, SIZE) <= SMALL {
        return compare_small(
            x,
            list,
            first,
            second,
            first_sheet,
            second_sheet,
            first_half,
            second_half,
        );
    }
    compare_large(
        x,
        list,
        first,
        second,
        first_sheet,
        second_sheet,
        first_half,
        second_half,
    )
}

// The same for logs of no records, whose list is the header.
pub fn empty_framed(
    x: TypedLogs,
    list: &mut [u8],
    first: &[u8],
    second: &[u8],
    first_sheet: &[u8],
    second_sheet: &[u8],
    first_half: &[u32],
    second_half: &[u32],
) -> Answer
    requires { Passes false first_sheet.now second_sheet.now x.count (length second.now) (length first.now) first_half.now x.first second_half.now x.second }
    ensures { Leaves x.count first.now second.now list.old (list_checked x.count first.now second.now (length list.old) (type_at first_half.now first_sheet.now x.first) (type_at second_half.now second_sheet.now x.second)) result list.new }
{
    if type_word(second_half, x.second, SIZE) <= SMALL {
        return compare_small(
            x,
            list,
            first,
            second,
            first_sheet,
            second_sheet,
            first_half,
            second_half,
        );
    }
    compare_large(
        x,
        list,
        first,
        second,
        first_sheet,
        second_sheet,
        first_half,
        second_half,
    )
}
