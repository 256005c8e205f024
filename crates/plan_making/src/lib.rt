// The plan of a call on two sheets: its entries, their words, and the ids of names where they are wanted.
#![tactic(auto)]

ghost use Rattle.std.specs.Prelude.{length};
ghost use Rattle.datatype.specs.Datatype.{Datatype};
ghost use Rattle.table.specs.Table.{type_at};
ghost use Rattle.obeying.specs.Obeying.{StopsOf};
ghost use Rattle.two_sheets.specs.TwoSheets.{Both};
ghost use Rattle.plan_making.specs.Made.{Room, Made};

use entry_words::put_entries;
use name_ids::put_names;

// The plan from a type of the source sheet to one of the destination sheet, and its words; how many entries it has.
pub fn make_plan(
    source_sheet: &[u8],
    destination_sheet: &[u8],
    source_half: &[u32],
    source_type: usize,
    destination_half: &[u32],
    destination_type: usize,
    plan: &mut [u32],
    words: &mut [u32],
) -> usize
    requires { Both source_sheet.now source_half.now source_type destination_sheet.now destination_half.now destination_type × Room destination_sheet.now destination_half.now destination_type (length plan.old) (length words.old) }
    ensures { Made source_sheet.now source_half.now source_type destination_sheet.now destination_half.now (type_at destination_half.now destination_sheet.now destination_type) plan.new result words.new }
{
    let entries = planning::plan(
        source_half,
        source_sheet,
        source_type,
        destination_half,
        destination_sheet,
        destination_type,
        plan,
    );
    put_entries(
        plan,
        entries,
        source_half,
        source_sheet,
        destination_half,
        destination_sheet,
        words,
    );
    put_names(
        entries,
        source_half,
        source_sheet,
        destination_half,
        destination_sheet,
        words,
    );
    entries
}

// The same to the leaves that obey stop in a call with this handling.
pub fn make_stop_plan(
    source_sheet: &[u8],
    destination_sheet: &[u8],
    source_half: &[u32],
    source_type: usize,
    destination_half: &[u32],
    destination_type: usize,
    handling: u32,
    plan: &mut [u32],
    words: &mut [u32],
) -> usize
    requires { Both source_sheet.now source_half.now source_type destination_sheet.now destination_half.now destination_type × Room destination_sheet.now destination_half.now destination_type (length plan.old) (length words.old) }
    ensures { (E : Datatype) → StopsOf handling (type_at destination_half.now destination_sheet.now destination_type) E → Made source_sheet.now source_half.now source_type destination_sheet.now destination_half.now E plan.new result words.new }
{
    let entries = planning::stop_plan(
        source_half,
        source_sheet,
        source_type,
        destination_half,
        destination_sheet,
        destination_type,
        handling,
        plan,
    );
    entry_words::put_entries(
        plan,
        entries,
        source_half,
        source_sheet,
        destination_half,
        destination_sheet,
        words,
    );
    name_ids::put_names(
        entries,
        source_half,
        source_sheet,
        destination_half,
        destination_sheet,
        words,
    );
    entries
}
