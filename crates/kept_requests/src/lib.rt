//! What an entry of a run keeps out of line: the request that a guest made, and the bytes that a read gave. A request
//! stands without the zeros after its word, and blocks of bytes as the shortest words that they repeat.
#![tactic(auto)]

mod block_words;
mod bytes;
mod kept_request;

pub use block_words::shortest_word;
pub use bytes::Bytes;
pub use kept_request::KeptRequest;
pub use vio_bytes::NoMemory;
