// The setters over numbers: each edits a layout's eight words where they lie.
ghost use Rattle.std.specs.Prelude.{◌≡◌, true, ◌&&◌, leb};
ghost use Rattle.layout.specs.Setters.Edit.{size as of_size, field as of_field, order as of_order, pads as of_pads, sign as of_sign};
ghost use Rattle.layout_words.specs.Codes.{order_of, pad_of, sign_of, setter_call};

pub fn yirvagul_set_size(layout: &mut [u32; 8], size: u32) -> u32
    ensures { record { number = result; words = layout.new } ≡ setter_call true (of_size size) layout.old }
{
    layout_words::setters::set_size(layout, size)
}

pub fn yirvagul_set_field(layout: &mut [u32; 8], offset: u32, precision: u32) -> u32
    ensures { record { number = result; words = layout.new } ≡ setter_call true (of_field offset precision) layout.old }
{
    layout_words::setters::set_field(layout, offset, precision)
}

pub fn yirvagul_set_order(layout: &mut [u32; 8], order: u32) -> u32
    ensures { record { number = result; words = layout.new } ≡ setter_call (leb order 1) (of_order (order_of order)) layout.old }
{
    layout_words::setters::set_order(layout, order)
}

pub fn yirvagul_set_pads(layout: &mut [u32; 8], lsb: u32, msb: u32) -> u32
    ensures { record { number = result; words = layout.new } ≡ setter_call (leb lsb 2 && leb msb 2) (of_pads (pad_of lsb) (pad_of msb)) layout.old }
{
    layout_words::setters::set_pads(layout, lsb, msb)
}

// Refused on a bits layout.
pub fn yirvagul_set_sign(layout: &mut [u32; 8], sign: u32) -> u32
    ensures { record { number = result; words = layout.new } ≡ setter_call (leb sign 1) (of_sign (sign_of sign)) layout.old }
{
    layout_words::setters::set_sign(layout, sign)
}
