// The plan of a call and its words, in arrays of the size that the call needs.
#![tactic(auto)]

ghost use Rattle.std.specs.Prelude.{◌≡◌, true, false, ◌≤◌, length};
ghost use Rattle.datatype.specs.Datatype.{size};
ghost use Rattle.table.specs.Table.{type_at};
ghost use Rattle.runs.specs.Run.Checked.{passed};
ghost use Rattle.plan_making.specs.Made.{Room};
ghost use Rattle.conversion.specs.Call.{source_of, answer_of, StopSays, LookSays, Passes, LeavesIn};

use answer::Answer;
use conversion::Conversion;
use converting::{convert_planned, first_stop};
use datatype::STOP;
use loops::Exception;
use obeying::asks_other;
use plan_making::{make_plan, make_stop_plan};
use table::SIZE;
use table::read::type_word;

// A destination record of at most so many bytes goes with the small arrays.
const SMALL: usize = 128;

// The exception that stops the call, by a plan to the leaves that obey stop. Nothing is written but the arrays of the plan.
fn look_by_plan(
    x: Conversion,
    source_sheet: &[u8],
    destination_sheet: &[u8],
    out: &[u8],
    other: &[u8],
    source_half: &[u32],
    destination_half: &[u32],
    plan: &mut [u32],
    words: &mut [u32],
) -> Option<Exception>
    requires { Passes x.in_place source_sheet.now destination_sheet.now x.count (length out.now) (length other.now) source_half.now x.source destination_half.now x.destination × (x.handling ≤ 1) × Room destination_sheet.now destination_half.now x.destination (length plan.old) (length words.old) }
    ensures { StopSays x.handling (type_at source_half.now source_sheet.now x.source) (type_at destination_half.now destination_sheet.now x.destination) x.count (source_of x.in_place out.now other.now) result }
{
    let source_type = x.source;
    let destination_type = x.destination;
    let entries = make_stop_plan(
        source_sheet,
        destination_sheet,
        source_half,
        source_type,
        destination_half,
        destination_type,
        x.handling,
        plan,
        words,
    );
    if entries == 0 {
        return None;
    }
    let source_size = type_word(source_half, source_type, SIZE);
    first_stop(
        x.in_place,
        out,
        other,
        x.count,
        source_size,
        plan,
        entries,
        source_half,
        destination_half,
        words,
    )
}

// What is known of the call before its whole plan is made: the exception that stops it, or whether one is to be looked for by that plan. Where no member asks for
// another handling than the call's, no plan is needed for that.
fn look(
    x: Conversion,
    source_sheet: &[u8],
    destination_sheet: &[u8],
    out: &[u8],
    other: &[u8],
    source_half: &[u32],
    destination_half: &[u32],
    plan: &mut [u32],
    words: &mut [u32],
) -> Result<bool, Exception>
    requires { Passes x.in_place source_sheet.now destination_sheet.now x.count (length out.now) (length other.now) source_half.now x.source destination_half.now x.destination × (x.handling ≤ 1) × Room destination_sheet.now destination_half.now x.destination (length plan.old) (length words.old) }
    ensures { LookSays x.handling (type_at source_half.now source_sheet.now x.source) (type_at destination_half.now destination_sheet.now x.destination) x.count (source_of x.in_place out.now other.now) result }
{
    let handling = x.handling;
    if asks_other(destination_half, x.destination, handling) {
        return match look_by_plan(
            x,
            source_sheet,
            destination_sheet,
            out,
            other,
            source_half,
            destination_half,
            plan,
            words,
        ) {
            Some(first) => Err(first),
            None => Ok(false),
        };
    }
    Ok(handling == STOP)
}

// A plan of at most 128 entries. The plan is made once, and then the records go by it; where members have words, it may be that one to fewer leaves is made
// in the same arrays before it.
#[inline(never)]
fn convert_small(
    x: Conversion,
    source_sheet: &[u8],
    destination_sheet: &[u8],
    out: &mut [u8],
    other: &[u8],
    source_half: &[u32],
    destination_half: &[u32],
) -> Result<u64, Exception>
    requires { Passes x.in_place source_sheet.now destination_sheet.now x.count (length out.old) (length other.now) source_half.now x.source destination_half.now x.destination × (x.handling ≤ 1) × (size (type_at destination_half.now destination_sheet.now x.destination) ≤ 128) }
    ensures { LeavesIn x.in_place x.handling x.count out.old other.now (passed (type_at source_half.now source_sheet.now x.source) (type_at destination_half.now destination_sheet.now x.destination)) (answer_of result) out.new }
{
    let source_type = x.source;
    let destination_type = x.destination;
    let mut plan = [0u32; 256];
    let mut words = [0u32; 2048];
    let scan = look(
        x,
        source_sheet,
        destination_sheet,
        out,
        other,
        source_half,
        destination_half,
        &mut plan,
        &mut words,
    )?;
    let entries = make_plan(
        source_sheet,
        destination_sheet,
        source_half,
        source_type,
        destination_half,
        destination_type,
        &mut plan,
        &mut words,
    );
    let source_size = type_word(source_half, source_type, SIZE);
    let destination_size = type_word(destination_half, destination_type, SIZE);
    convert_planned(
        x.in_place,
        scan,
        out,
        other,
        x.count,
        source_size,
        destination_size,
        &plan,
        entries,
        source_half,
        destination_half,
        &words,
    )
}

// A plan of at most 4,096 entries. It says again what convert_small says: a part that both shared would leave two functions so short that the compiler would put them,
// and the larger arrays with them, into every caller.
#[inline(never)]
fn convert_large(
    x: Conversion,
    source_sheet: &[u8],
    destination_sheet: &[u8],
    out: &mut [u8],
    other: &[u8],
    source_half: &[u32],
    destination_half: &[u32],
) -> Result<u64, Exception>
    requires { Passes x.in_place source_sheet.now destination_sheet.now x.count (length out.old) (length other.now) source_half.now x.source destination_half.now x.destination × (x.handling ≤ 1) }
    ensures { LeavesIn x.in_place x.handling x.count out.old other.now (passed (type_at source_half.now source_sheet.now x.source) (type_at destination_half.now destination_sheet.now x.destination)) (answer_of result) out.new }
{
    let source_type = x.source;
    let destination_type = x.destination;
    let mut plan = [0u32; 8192];
    let mut words = [0u32; 20480];
    let scan = look(
        x,
        source_sheet,
        destination_sheet,
        out,
        other,
        source_half,
        destination_half,
        &mut plan,
        &mut words,
    )?;
    let entries = make_plan(
        source_sheet,
        destination_sheet,
        source_half,
        source_type,
        destination_half,
        destination_type,
        &mut plan,
        &mut words,
    );
    let source_size = type_word(source_half, source_type, SIZE);
    let destination_size = type_word(destination_half, destination_type, SIZE);
    convert_planned(
        x.in_place,
        scan,
        out,
        other,
        x.count,
        source_size,
        destination_size,
        &plan,
        entries,
        source_half,
        destination_half,
        &words,
    )
}

// The answer of a call whose records were converted, or whose first exception kept them from it.
fn answer_of(converted: Result<u64, Exception>) -> Answer
    ensures { result ≡ answer_of converted }
{
    match converted {
        Ok(count) => Answer::Done(count),
        Err(first) => Answer::Stop(first.record, first.byte, first.kind, first.given),
    }
}

// Each form chooses its arrays by itself: one function for both would be the only caller of either size, and the compiler would give it the room of both.
pub fn copy_framed(
    handling: u32,
    count: usize,
    source_type: usize,
    destination_type: usize,
    source_sheet: &[u8],
    destination_sheet: &[u8],
    out: &mut [u8],
    other: &[u8],
    source_half: &[u32],
    destination_half: &[u32],
) -> Answer
    requires { Passes false source_sheet.now destination_sheet.now count (length out.old) (length other.now) source_half.now source_type destination_half.now destination_type × (handling ≤ 1) }
    ensures { LeavesIn false handling count out.old other.now (passed (type_at source_half.now source_sheet.now source_type) (type_at destination_half.now destination_sheet.now destination_type)) result out.new }
{
    let x = Conversion {
        in_place: false,
        handling,
        count,
        source: source_type,
        destination: destination_type,
    };
    if type_word(destination_half, destination_type, SIZE) <= SMALL {
        return answer_of(convert_small(
            x,
            source_sheet,
            destination_sheet,
            out,
            other,
            source_half,
            destination_half,
        ));
    }
    answer_of(convert_large(
        x,
        source_sheet,
        destination_sheet,
        out,
        other,
        source_half,
        destination_half,
    ))
}

pub fn replace_framed(
    handling: u32,
    count: usize,
    source_type: usize,
    destination_type: usize,
    source_sheet: &[u8],
    destination_sheet: &[u8],
    out: &mut [u8],
    other: &[u8],
    source_half: &[u32],
    destination_half: &[u32],
) -> Answer
    requires { Passes true source_sheet.now destination_sheet.now count (length out.old) (length other.now) source_half.now source_type destination_half.now destination_type × (handling ≤ 1) }
    ensures { LeavesIn true handling count out.old other.now (passed (type_at source_half.now source_sheet.now source_type) (type_at destination_half.now destination_sheet.now destination_type)) result out.new }
{
    let x = Conversion {
        in_place: true,
        handling,
        count,
        source: source_type,
        destination: destination_type,
    };
    if type_word(destination_half, destination_type, SIZE) <= SMALL {
        return answer_of(convert_small(
            x,
            source_sheet,
            destination_sheet,
            out,
            other,
            source_half,
            destination_half,
        ));
    }
    answer_of(convert_large(
        x,
        source_sheet,
        destination_sheet,
        out,
        other,
        source_half,
        destination_half,
    ))
}
