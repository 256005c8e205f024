// The setters of order, pads and sign: each takes a layout and an argument, and gives the answer and the layout after it.
#![tactic(auto)]

ghost use Rattle.std.specs.Prelude.{◌≡◌};
ghost use Rattle.layout.specs.Setters.{set_order, set_pads, set_sign};

use bits::Order;
use layout::{Class, Edited, Layout, Pad};
use setter_parts::changed;

#[tactic(auto, unfolding(layout::specs::Setters::set_order))]
pub fn set_order(l: Layout, order: Order) -> Edited
    ensures { result ≡ set_order l order }
{
    changed(l, true, Layout { order, ..l })
}

#[tactic(auto, unfolding(layout::specs::Setters::set_pads))]
pub fn set_pads(l: Layout, lsb: Pad, msb: Pad) -> Edited
    ensures { result ≡ set_pads l lsb msb }
{
    changed(l, true, Layout { lsb, msb, ..l })
}

// Refused on a bits layout.
#[tactic(auto, unfolding(layout::specs::Setters::set_sign))]
pub fn set_sign(l: Layout, signed: bool) -> Edited
    ensures { result ≡ set_sign l signed }
{
    changed(l, l.class == Class::Int, Layout { signed, ..l })
}
