// The mask of two types: the significant bits of every matched source leaf, set over a record of zeros. It goes from match to match as the plan of a call does, without an array for one.
#![tactic(auto)]

ghost use Rattle.std.specs.Prelude.{◌≡◌, List, ℕ, ◌+◌, ◌-◌, ◌^◌, ◌≤◌, length};
ghost use Rattle.layout.specs.Layout.{Valid};
ghost use Rattle.number.specs.Place.{stored};
ghost use Rattle.datatype.specs.Datatype.{size};
ghost use Rattle.table.specs.Table.{layout_at, type_at};
ghost use Rattle.two_sheets.specs.TwoSheets.{Both};
ghost use Rattle.paths.specs.Leaf.{match_of};
ghost use Rattle.masks.specs.Mask.{pads_kept, mask};
ghost use Rattle.mask_marking.specs.Marking.{marked_match, marked_over, Reached};

use bits::ByteAt;
use bits::shift::ones;
use layout::{Layout, Pad};
use loops::bytes::clear_bytes;
use matching::match_at;
use paths::Pair;
use placing::store;
use planning::step_of;
use table::SIZE;
use table::read::{layout_at, type_word};

// The layout with pads that keep: a write then leaves every bit beside the number as it was.
fn pads_kept(l: Layout) -> Layout
    ensures { result ≡ pads_kept l }
{
    Layout {
        lsb: Pad::Keep,
        msb: Pad::Keep,
        ..l
    }
}

// Sets the significant bits of the leaf of a source type at a byte of the record.
fn mark_leaf(record: &mut [u8], byte: usize, type_number: usize, source_half: &[u32])
    requires { Valid (layout_at source_half.now type_number) × (byte + (layout_at source_half.now type_number).size.0 ≤ length «record».old) }
    ensures { «record».new ≡ stored (pads_kept (layout_at source_half.now type_number)) byte (2 ^ (layout_at source_half.now type_number).precision - 1) «record».old }
{
    let l = layout_at(source_half, type_number);
    store(record, ByteAt(byte), pads_kept(l), ones(l.precision));
}

// Sets those of the source leaf of a match; nothing where there is none.
fn mark_match(record: &mut [u8], m: Pair, source_half: &[u32])
    requires { Reached (length «record».old) m source_half.now }
    ensures { (ts wd td : List ℕ) → «record».new ≡ marked_match (match_of source_half.now ts wd td m) «record».old }
{
    let Pair::Matched(source_byte, source_type, destination_type) = m else {
        return;
    };
    mark_leaf(record, source_byte, source_type, source_half);
}

// Sets those of every source leaf that a leaf of the destination type is matched with.
fn mark_leaves(
    record: &mut [u8],
    source_half: &[u32],
    source_sheet: &[u8],
    source_type: usize,
    destination_half: &[u32],
    destination_sheet: &[u8],
    destination_type: usize,
)
    requires { Both source_sheet.now source_half.now source_type destination_sheet.now destination_half.now destination_type × (length «record».old ≡ size (type_at source_half.now source_sheet.now source_type)) }
    ensures { «record».new ≡ marked_over (type_at source_half.now source_sheet.now source_type) (type_at destination_half.now destination_sheet.now destination_type) «record».old }
{
    let bytes = type_word(destination_half, destination_type, SIZE);
    let mut destination_byte: usize = 0;
    // A step is as long as the leaf that was found: no range has these steps.
    while destination_byte < bytes {
        let m = match_at(
            source_half,
            source_sheet,
            source_type,
            destination_half,
            destination_sheet,
            destination_type,
            destination_byte,
        );
        mark_match(record, m, source_half);
        destination_byte += step_of(destination_half, m);
    }
}

// Makes the bytes, one source record of them, the mask of the two types.
pub fn put_mask(
    record: &mut [u8],
    source_half: &[u32],
    source_sheet: &[u8],
    source_type: usize,
    destination_half: &[u32],
    destination_sheet: &[u8],
    destination_type: usize,
)
    requires { Both source_sheet.now source_half.now source_type destination_sheet.now destination_half.now destination_type × (length «record».old ≡ size (type_at source_half.now source_sheet.now source_type)) }
    ensures { «record».new ≡ mask (type_at source_half.now source_sheet.now source_type) (type_at destination_half.now destination_sheet.now destination_type) }
{
    let bytes = record.len();
    clear_bytes(record, bytes);
    mark_leaves(
        record,
        source_half,
        source_sheet,
        source_type,
        destination_half,
        destination_sheet,
        destination_type,
    );
}
