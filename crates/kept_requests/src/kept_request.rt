ghost use Rattle.std.specs.Prelude.{◌≡◌, ◌-◌, ◌≤◌, ◌↔◌, ◌++◌, length, take, drop, replicate, IfOk, IsOk, IsTrue};
ghost use Rattle.vdisk_msg.specs.Fills.{IsFill};

use smallvec::SmallVec;
use std::alloc::Global;
use std::marker::Model;
use vdisk_msg::{Fill, Request};
use vio_bytes::NoMemory;

/// A request that an entry keeps. It takes no memory but for the word of a write of more than 16 bytes, which stands out
/// of line and without the zeros after it.
#[derive(Debug, Drop)]
pub struct KeptRequest {
    inner: Kept,
}

/// A request, a write with the front of its word's bytes: zeros are after it.
#[derive(Debug, Drop)]
enum Kept {
    Read {
        block: u64,
        count: u64,
    },
    Write {
        block: u64,
        count: u64,
        len: u16,
        front: SmallVec<u8, 16>,
    },
    Flush,
}

impl Model for KeptRequest {
    ghost use Rattle.vdisk_msg.specs.declared.request.Request.{Request};
    ghost use Rattle.kept_requests.specs.Kept.{IsWithin, request_of};

    ghost Value = { Request };

    ghost view = { λ k. request_of k.inner };

    ghost invariant = { λ k. IsWithin k.inner };
}

impl KeptRequest {
    ghost use Rattle.kept_requests.specs.Kept.{HasFewBytes};
    ghost use Rattle.vdisk_msg.specs.Fills.{IsRequest};

    /// Keeps a copy of a request.
    pub fn new(alloc: Global, request: &Request) -> Result<Self, NoMemory>
        ensures kept { IfOk result (λ kept. kept ≡ request.now) }
        ensures few { IsRequest request.now → HasFewBytes request.now → IsOk result }
    {
        let inner = match request {
            Request::Read { block, count } => Kept::Read {
                block: *block,
                count: *count,
            },
            Request::Write { block, count, fill } => Kept::Write {
                block: *block,
                count: *count,
                len: fill.len,
                front: SmallVec::from_slice(alloc, front(fill))?,
            },
            Request::Flush => Kept::Flush,
        };
        Ok(KeptRequest { inner })
    }

    /// The request.
    pub fn get(&self) -> Request
        ensures { result ≡ self.now }
    {
        match &self.inner {
            Kept::Read { block, count } => Request::Read {
                block: *block,
                count: *count,
            },
            Kept::Write {
                block,
                count,
                len,
                front,
            } => Request::Write {
                block: *block,
                count: *count,
                fill: Fill {
                    len: *len,
                    bytes: with_zeros(front),
                },
            },
            Kept::Flush => Request::Flush,
        }
    }
}

/// The bytes of a word, without the zeros after it; all 1,024 where others are after it.
fn front(fill: &Fill) -> &[u8]
    ensures within { length result.now ≤ 1024 }
    ensures front { result.now ≡ take (length result.now) fill.now.bytes }
    ensures zeros { drop (length result.now) fill.now.bytes ≡ replicate (1024 - length result.now) 0 }
    ensures short { IsFill fill.now → length result.now ≤ fill.now.len }
{
    let (front, behind) = fill.bytes.split_at(usize::from(fill.len).min(1024));
    if are_zeros(behind) {
        front
    } else {
        &fill.bytes
    }
}

/// Whether bytes are zeros: the greatest is. Each is looked at, also after one that isn't, so that many can be at once.
fn are_zeros(bytes: &[u8]) -> bool
    ensures { IsTrue result ↔ (bytes.now ≡ replicate (length bytes.now) 0) }
{
    let mut most = 0;
    for byte in bytes {
        most = (*byte).max(most);
    }
    most == 0
}

/// The bytes of a word by their front.
fn with_zeros(front: &[u8]) -> [u8; 1024]
    requires { length front.now ≤ 1024 }
    ensures { result ≡ front.now ++ replicate (1024 - length front.now) 0 }
{
    let mut bytes = [0; 1024];
    bytes[..front.len()].copy_from_slice(front);
    bytes
}
