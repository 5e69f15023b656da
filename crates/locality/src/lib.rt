#![tactic(auto)]

// What stands at an offset of a file, judged there, is what the same bytes are judged to be in a file of their own, with offsets moved. So
// files can be joined. Theorems only.
