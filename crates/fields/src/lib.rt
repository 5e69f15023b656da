#![tactic(auto)]

// The keywords of a block and the fields of its array, by the grammar of the file: what `keyword` and `description` answer is what stands
// there. Theorems only.
