//! What a disk's requests are and what may become of them, as definitions over lists. They say when a request is
//! accepted, refused or finds no room, what a completed one shows, and in which order they complete. The world and the
//! top call stand on it. Its functions carry laws: they do nothing and promise a theorem.
#![tactic(auto)]

mod laws;

pub use laws::{each_request_is_admitted, requests_complete_once_in_order};
