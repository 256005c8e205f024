// The setters of size and field: each takes a layout and arguments, and gives the answer and the layout after it.
#![tactic(auto)]

ghost use Rattle.std.specs.Prelude.{◌≡◌};
ghost use Rattle.layout.specs.Setters.{set_size, set_field};

use bits::{BitAt, ByteAt, bits_of};
use layout::{Edited, Layout, is_valid, precision_allowed, size_allowed};
use setter_parts::{bytes_for, changed, done, refused};

// Precision and offset shrink to what the size holds.
#[tactic(auto, unfolding(layout::specs::Setters::set_size))]
pub fn set_size(l: Layout, size: ByteAt) -> Edited
    ensures { result ≡ set_size l size.0 }
{
    if !size_allowed(size) {
        return refused(l);
    }
    let whole = bits_of(size);
    let precision = l.precision.min(whole.0);
    let offset = BitAt(l.offset.0.min(whole.0 - precision));
    changed(
        l,
        true,
        Layout {
            size,
            offset,
            precision,
            ..l
        },
    )
}

// Offset and precision become these. The size grows where they end past it, and they may end at bit 64 at most.
#[tactic(auto, unfolding(layout::specs::Setters::set_field))]
pub fn set_field(l: Layout, offset: BitAt, precision: u32) -> Edited
    ensures { result ≡ set_field l offset.0 precision }
{
    if !is_valid(l) || !precision_allowed(precision) || 64 - precision < offset.0 {
        return refused(l);
    }
    let size = ByteAt(l.size.0.max(bytes_for(offset.0 + precision)));
    done(Layout {
        size,
        offset,
        precision,
        ..l
    })
}
