// The lister's limits, and how many bytes the lines of a listing take at most, as `specs/Limits` has them.
use append::appender::DECIMAL_MOST;
use append::words::{IDENTITY_MOST, ORDER_MOST, TYPE_MOST};
use blocks::BLOCK_LIMIT;

// The program's input.
pub const INPUT_LIMIT: usize = 65536;

// A number in a column, with the separator before it.
const NUMBER_COLUMN: usize = 1 + DECIMAL_MOST;

// Number, start, header and extent length, identity.
const ROW_MOST: usize = DECIMAL_MOST + 3 * NUMBER_COLUMN + 1 + IDENTITY_MOST;

// The letter of an origin.
const LETTER_MOST: usize = 1;

// Type, order, three Dims, configuration, orientation, offset, and a letter after each of these six fields.
const ARRAY_MOST: usize = 1 + TYPE_MOST + 1 + ORDER_MOST + 6 * NUMBER_COLUMN + 6 * LETTER_MOST;

// `blocks` and the count; a block.
const COUNT_LINE_MOST: usize = 6 + NUMBER_COLUMN + 1;

const BLOCK_LINE_MOST: usize = ROW_MOST + ARRAY_MOST + 1;

// A buffer of so many bytes has room for every listing.
pub const LISTING_ROOM: usize = COUNT_LINE_MOST + BLOCK_LINE_MOST * BLOCK_LIMIT;
