//! Tests of what no script, packet or line of text can show: sources, sinks, images and hosts that fail or are
//! interrupted, those over std, a small cache before an image, kinds of entries that no script reaches, and how a journal
//! and its parts keep what they are given. Each test is proved before it runs, so they are few: small functions without
//! clauses make the calls.
#![tactic(auto)]

#[cfg(test)]
mod caches;
#[cfg(test)]
mod files;
#[cfg(test)]
mod journals;
#[cfg(test)]
mod parts;
#[cfg(test)]
mod reports;
#[cfg(test)]
mod streams;
#[cfg(test)]
mod worlds;
