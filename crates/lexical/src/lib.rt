#![tactic(auto)]

// What a value and a whole number are, as relations between bytes and what they stand for, and that the functions of `text` give just
// these: theorems only.
