#![tactic(auto)]

// One element: its bytes out of the file, in either order, and into the buffer. A function that moves one reads all its bytes
// before it writes one: the compiler does not know that file and buffer lie apart, and joins reads, and writes, only so.
pub mod orders;
pub mod reading;
pub mod writing;
