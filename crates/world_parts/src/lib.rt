//! What the lines of a script are for a world of lanes, and the part of the journal that each gives: definitions that
//! the code of the world, and the laws of a run, stand on.
#![tactic(auto)]
