#![tactic(auto)]

// One element with an offset added: its value set to the nearest of its type, in the byte order asked for.
pub mod element;
pub mod lane;
pub mod shift;
