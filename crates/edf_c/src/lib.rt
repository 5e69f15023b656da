#![tactic(auto)]

// The public calls for C and for other languages: numbers and slices only. A slice is a pointer and a length. Each call answers a
// code, 0 for success or the number of the error in document 01's table; the value and the position go into numbers that the caller
// lends. In an error the value's room and every lent buffer hold what they held; in success the position's room does.
mod answers;
mod arrays;
mod files;
mod keywords;
mod texts;
mod writing;
