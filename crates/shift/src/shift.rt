// The offset that is added to an element, as steps that no value of it overflows.

// The bits of `inverted` are inverted; what is then above `high` is lowered to it; `delta` is added, modulo the numbers of an
// element; and the same bits are inverted back. An element of w bytes takes the w highest bytes of each number. With the sign bit
// inverted signed values stand in order; with all others inverted the order is turned round, so that adding to a value takes away
// from it.
#[derive(Clone, Copy)]
pub struct Shift {
    pub inverted: u64,
    pub high: u64,
    pub delta: u64,
}

// A shift of elements that are stored in the order with the code `order`, and asked for in the order `asked`.
#[derive(Clone, Copy)]
pub struct Addition {
    pub order: u8,
    pub asked: u8,
    pub shift: Shift,
}
