// One leaf that is no enum: what its number becomes, and where that is written.
#![tactic(auto)]

ghost use Rattle.std.specs.Prelude.{◌≡◌, ◌+◌, ◌^◌, ◌≤◌, ◌<◌, length};
ghost use Rattle.layout.specs.Layout.{Valid};
ghost use Rattle.number.specs.Number.{number_at, fitted};
ghost use Rattle.number.specs.Place.{stored};
ghost use Rattle.table.specs.Table.{layout_at};

use bits::ByteAt;
use fitting::fit_raw;
use layout::Layout;
use number::Fitted;
use placing::{raw_at, store};
use table::read::layout_at;

// What the number in l's place at the source byte of src becomes in a leaf of layout m that is no enum.
fn number_bits(src: &[u8], source_byte: usize, l: Layout, m: Layout) -> Fitted
    requires { Valid l × Valid m × (source_byte + l.size.0 ≤ length src.now) }
    ensures { (result ≡ fitted m (number_at l source_byte src.now)) × (result.raw < 2 ^ m.precision) }
{
    fit_raw(l, m, raw_at(src, ByteAt(source_byte), l))
}

// Converts the leaf of the source type at the source byte of src into the leaf of the destination type, which is no enum, at the destination byte of dst. The kind of exception is returned.
pub fn convert_number(
    src: &[u8],
    dst: &mut [u8],
    destination_byte: usize,
    source_byte: usize,
    source_type: usize,
    destination_type: usize,
    source_half: &[u32],
    destination_half: &[u32],
) -> u32
    requires { Valid (layout_at source_half.now source_type) × Valid (layout_at destination_half.now destination_type) × (source_byte + (layout_at source_half.now source_type).size.0 ≤ length src.now) × (destination_byte + (layout_at destination_half.now destination_type).size.0 ≤ length dst.old) }
    ensures { (result ≡ (fitted (layout_at destination_half.now destination_type) (number_at (layout_at source_half.now source_type) source_byte src.now)).kind) × (dst.new ≡ stored (layout_at destination_half.now destination_type) destination_byte (fitted (layout_at destination_half.now destination_type) (number_at (layout_at source_half.now source_type) source_byte src.now)).raw dst.old) }
{
    let l = layout_at(source_half, source_type);
    let m = layout_at(destination_half, destination_type);
    let fit = number_bits(src, source_byte, l, m);
    store(dst, ByteAt(destination_byte), m, fit.raw);
    fit.kind
}

// The kind of exception that the same conversion raises.
pub fn number_kind(
    src: &[u8],
    source_byte: usize,
    source_type: usize,
    destination_type: usize,
    source_half: &[u32],
    destination_half: &[u32],
) -> u32
    requires { Valid (layout_at source_half.now source_type) × Valid (layout_at destination_half.now destination_type) × (source_byte + (layout_at source_half.now source_type).size.0 ≤ length src.now) }
    ensures { result ≡ (fitted (layout_at destination_half.now destination_type) (number_at (layout_at source_half.now source_type) source_byte src.now)).kind }
{
    let m = layout_at(destination_half, destination_type);
    let fit = number_bits(src, source_byte, layout_at(source_half, source_type), m);
    fit.kind
}
