//! The sample script: a script that is made from a number, the same at each run. The top call runs it. Its text is
//! exactly that of its definition, by draws, and each of its lines spells an event.
#![tactic(auto)]

mod sample;

pub use sample::sample_script;
