//! Lanes of one kind or of several. Here is what a settle needs of their rounds and ticks, what a settle over them is,
//! and what follows for it from laws of a round. It has no code: the laws of worlds stand on it.
#![tactic(auto)]
