#![tactic(auto)]

// What the calls answer of a block depends on its row, its bytes and the general header alone, and moves with its start. Theorems only.
