// The numbers that the new items of a sweep take.

use bounds::ITEM_PLACES;

// The free numbers of each kind, in rising order.
#[derive(Clone, Copy)]
pub struct FreeNumbers<'a> {
    pub edges: &'a [u16; ITEM_PLACES],
    pub vertices: &'a [u16; ITEM_PLACES],
    pub faces: &'a [u16; ITEM_PLACES],
    pub loops: &'a [u16; ITEM_PLACES],
}
