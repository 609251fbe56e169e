// How large a table may be, as the code has it; `Bounds` in the specs has the same numbers.

#![tactic(auto)]

// Items of a kind (document 01: each capacity is at most 4,096).
pub const MOST_ITEMS: usize = 4096;

// Half-edges: two of each edge.
pub const MOST_HALVES: usize = 2 * MOST_ITEMS;

// An array with a place for each item's number, and one for 0, which names none.
pub const ITEM_PLACES: usize = MOST_ITEMS + 1;

// The same for half-edges.
pub const HALF_PLACES: usize = MOST_HALVES + 1;
