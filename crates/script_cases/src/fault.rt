use std::alloc::{AllocError, AllocFailed};
use std::num::ParseIntError;
use vio_io::NoMemory;

/// Why a case doesn't stand.
#[derive(Drop)]
pub enum Fault {
    /// Memory is wanted.
    Memory,

    /// This is wrong with its text, or came of it.
    Wrong(&'static str),

    /// What came isn't what was wanted.
    Differs(String),
}

impl Fault {
    /// The fault in words.
    pub fn text(&self) -> &str {
        match self {
            Fault::Memory => "no memory",
            Fault::Wrong(text) => text,
            Fault::Differs(text) => text.as_str(),
        }
    }
}

impl From<AllocError> for Fault {
    fn from(_: AllocError) -> Self {
        Fault::Memory
    }
}

impl<T: Drop> From<AllocFailed<T>> for Fault {
    fn from(_: AllocFailed<T>) -> Self {
        Fault::Memory
    }
}

impl From<NoMemory> for Fault {
    fn from(_: NoMemory) -> Self {
        Fault::Memory
    }
}

impl From<ParseIntError> for Fault {
    fn from(_: ParseIntError) -> Self {
        Fault::Wrong("a word in a number's place")
    }
}
