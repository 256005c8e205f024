// Each setter edits a layout's eight words where they lie.
ghost use Rattle.std.specs.Prelude.{◌≡◌, true, ◌&&◌, ◌<◌, ◌^◌, leb};
ghost use Rattle.layout.specs.Setters.Edit.{size as of_size, field as of_field, order as of_order, pads as of_pads, sign as of_sign};
ghost use Rattle.layout_words.specs.Codes.{order_of, pad_of, sign_of, outcome, setter_call};

use crate::{BE, KEEP, SIGNED, both, is_coded, layout_of, layout_words, order_of, pad_of};
use answer::number_of;
use bits::{BitAt, ByteAt};
use layout::Edited;

// Document 01's number of a setter's refusal.
const RANGE: u32 = 9;

// Where all words and arguments are codes, the edited layout's words and the setter's number; else RANGE, and the words stay.
fn put(coded: bool, e: Edited, layout: &mut [u32; 8]) -> u32
    requires { e.layout.size.0 < 2 ^ 32 }
    ensures { record { number = result; words = layout.new } ≡ outcome coded e layout.old }
{
    if !coded {
        return RANGE;
    }
    let l = e.layout;
    let a = e.answer;
    *layout = layout_words(l);
    number_of(a)
}

pub fn set_size(layout: &mut [u32; 8], size: u32) -> u32
    ensures { record { number = result; words = layout.new } ≡ setter_call true (of_size size) layout.old }
{
    let w = *layout;
    let e = place_setters::set_size(layout_of(w), ByteAt(size as usize));
    put(is_coded(w), e, layout)
}

pub fn set_field(layout: &mut [u32; 8], offset: u32, precision: u32) -> u32
    ensures { record { number = result; words = layout.new } ≡ setter_call true (of_field offset precision) layout.old }
{
    let w = *layout;
    let e = place_setters::set_field(layout_of(w), BitAt(offset), precision);
    put(is_coded(w), e, layout)
}

pub fn set_order(layout: &mut [u32; 8], order: u32) -> u32
    ensures { record { number = result; words = layout.new } ≡ setter_call (leb order 1) (of_order (order_of order)) layout.old }
{
    let w = *layout;
    let e = style_setters::set_order(layout_of(w), order_of(order));
    put(both(order <= BE, is_coded(w)), e, layout)
}

pub fn set_pads(layout: &mut [u32; 8], lsb: u32, msb: u32) -> u32
    ensures { record { number = result; words = layout.new } ≡ setter_call (leb lsb 2 && leb msb 2) (of_pads (pad_of lsb) (pad_of msb)) layout.old }
{
    let w = *layout;
    let e = style_setters::set_pads(layout_of(w), pad_of(lsb), pad_of(msb));
    put(both(both(lsb <= KEEP, msb <= KEEP), is_coded(w)), e, layout)
}

// Refused on a bits layout.
pub fn set_sign(layout: &mut [u32; 8], sign: u32) -> u32
    ensures { record { number = result; words = layout.new } ≡ setter_call (leb sign 1) (of_sign (sign_of sign)) layout.old }
{
    let w = *layout;
    let e = style_setters::set_sign(layout_of(w), sign == SIGNED);
    put(both(sign <= SIGNED, is_coded(w)), e, layout)
}
