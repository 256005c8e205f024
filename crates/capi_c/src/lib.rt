// The calls for C, whose header is include/yirvagul.h: an answer and a layout are eight words each, lent by one pointer; a slice is a pointer and a length.
// Each is the call of that name in the crate capi, with its contract.
#![tactic(auto)]

ghost use Rattle.std.specs.Prelude.{length};
ghost use Rattle.runs.specs.Run.{copying_run, in_place_run, plain};
ghost use Rattle.leaves.specs.Call.{answer_of as list_answer_of, list_after};
ghost use Rattle.record_size.specs.RecordSize.{answer_of as size_answer_of};
ghost use Rattle.capi.specs.Calls.{Answered, Called, Converts, Reported, Compared, Reached};

pub mod setters;

// Copying: the destination's own bytes are the background.
#[unsafe(no_mangle)]
pub extern "C" fn yirvagul_convert_copying(
    source_sheet: &[u8],
    destination_sheet: &[u8],
    count: u64,
    handling: u32,
    source: &[u8],
    destination: &mut [u8],
    table: &mut [u32],
    words: &mut [u64; 8],
) -> u32
    ensures { Converts (copying_run source_sheet.now destination_sheet.now count handling source.now destination.old table.old) result words.new destination.new table.new }
{
    capi::yirvagul_convert_copying(
        source_sheet,
        destination_sheet,
        count,
        handling,
        source,
        destination,
        table,
        words,
    )
}

// Copying, without handling: it stops.
#[unsafe(no_mangle)]
pub extern "C" fn yirvagul_convert_copying_plain(
    source_sheet: &[u8],
    destination_sheet: &[u8],
    count: u64,
    source: &[u8],
    destination: &mut [u8],
    table: &mut [u32],
    words: &mut [u64; 8],
) -> u32
    ensures { Converts (copying_run source_sheet.now destination_sheet.now count plain source.now destination.old table.old) result words.new destination.new table.new }
{
    capi::yirvagul_convert_copying_plain(
        source_sheet,
        destination_sheet,
        count,
        source,
        destination,
        table,
        words,
    )
}

// In place: one buffer, and a separate background.
#[unsafe(no_mangle)]
pub extern "C" fn yirvagul_convert_in_place(
    source_sheet: &[u8],
    destination_sheet: &[u8],
    count: u64,
    handling: u32,
    buffer: &mut [u8],
    background: &[u8],
    table: &mut [u32],
    words: &mut [u64; 8],
) -> u32
    ensures { Converts (in_place_run source_sheet.now destination_sheet.now count handling buffer.old background.now table.old) result words.new buffer.new table.new }
{
    capi::yirvagul_convert_in_place(
        source_sheet,
        destination_sheet,
        count,
        handling,
        buffer,
        background,
        table,
        words,
    )
}

// In place, without handling: it stops.
#[unsafe(no_mangle)]
pub extern "C" fn yirvagul_convert_in_place_plain(
    source_sheet: &[u8],
    destination_sheet: &[u8],
    count: u64,
    buffer: &mut [u8],
    background: &[u8],
    table: &mut [u32],
    words: &mut [u64; 8],
) -> u32
    ensures { Converts (in_place_run source_sheet.now destination_sheet.now count plain buffer.old background.now table.old) result words.new buffer.new table.new }
{
    capi::yirvagul_convert_in_place_plain(
        source_sheet,
        destination_sheet,
        count,
        buffer,
        background,
        table,
        words,
    )
}

// Writes the leaf list of a sheet.
#[unsafe(no_mangle)]
pub extern "C" fn yirvagul_leaf_list(
    sheet: &[u8],
    list: &mut [u8],
    table: &mut [u32],
    words: &mut [u64; 8],
) -> u32
    ensures { Called (list_answer_of sheet.now (length list.old) (length table.old)) (list_after sheet.now list.old (length table.old)) table.old result words.new list.new table.new }
{
    capi::yirvagul_leaf_list(sheet, list, table, words)
}

// Answers the size of one record of a sheet's type.
#[unsafe(no_mangle)]
pub extern "C" fn yirvagul_record_size(sheet: &[u8], table: &mut [u32], words: &mut [u64; 8]) -> u32
    ensures { Answered (size_answer_of sheet.now (length table.old)) table.old result words.new table.new }
{
    capi::yirvagul_record_size(sheet, table, words)
}

// Adds a log to a report.
#[unsafe(no_mangle)]
pub extern "C" fn yirvagul_report(
    source_sheet: &[u8],
    reader_sheet: &[u8],
    count: u64,
    log: &mut [u8],
    background: &[u8],
    memory: &mut [i64],
    output: &mut [u8],
    table: &mut [u32],
    words: &mut [u64; 8],
) -> u32
    ensures { Reported (record { source_sheet = source_sheet.now; reader_sheet = reader_sheet.now; count = count; log = log.old; background = background.now; memory = memory.old; output = output.old; table = table.old }) result words.new log.new memory.new output.new table.new }
{
    capi::yirvagul_report(
        source_sheet,
        reader_sheet,
        count,
        log,
        background,
        memory,
        output,
        table,
        words,
    )
}

// Compares two logs.
#[unsafe(no_mangle)]
pub extern "C" fn yirvagul_compare(
    first_sheet: &[u8],
    second_sheet: &[u8],
    count: u64,
    first: &[u8],
    second: &[u8],
    list: &mut [u8],
    table: &mut [u32],
    words: &mut [u64; 8],
) -> u32
    ensures { Compared (record { first_sheet = first_sheet.now; second_sheet = second_sheet.now; count = count; first = first.now; second = second.now; list = list.old; table = table.old }) result words.new list.new table.new }
{
    capi::yirvagul_compare(
        first_sheet,
        second_sheet,
        count,
        first,
        second,
        list,
        table,
        words,
    )
}

// Marks the bits of a source record that a conversion can turn on.
#[unsafe(no_mangle)]
pub extern "C" fn yirvagul_reach(
    source_sheet: &[u8],
    destination_sheet: &[u8],
    mask: &mut [u8],
    table: &mut [u32],
    words: &mut [u64; 8],
) -> u32
    ensures { Reached (record { source_sheet = source_sheet.now; destination_sheet = destination_sheet.now; mask = mask.old; table = table.old }) result words.new mask.new table.new }
{
    capi::yirvagul_reach(source_sheet, destination_sheet, mask, table, words)
}
