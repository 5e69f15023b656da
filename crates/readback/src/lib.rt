#![tactic(auto)]

// What is written reads back: theorems only, in `proofs/Main`.
