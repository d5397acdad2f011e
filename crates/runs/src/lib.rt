//! Runs of a step relation over a list of events, and laws as conditions on one event after those before it. It has
//! no code: the crates of steps and laws stand on it.
#![tactic(auto)]
