// The frame that an end took last.

ghost use Rattle.std.specs.Prelude.{◌≡◌, ◌≤◌, [], length, take, true, None, Some, IfOk, MatchResult, OnErr, OnOk};
ghost use Rattle.cookie_copy.specs.Faults.{PagesWithin, both_up, first_copy_fault};
ghost use Rattle.cookie_copy.specs.declared.fault.Access.TheVariants.{Read};
ghost use Rattle.cookie_copy.specs.Moved.{moved_in};
ghost use Rattle.lane_models.specs.Fetching.{data_cookies, frame_fault};
ghost use Rattle.vnet_msg.specs.Frames.{frame_in, holds_frame, moved_size};
ghost use Rattle.port_frames.specs.Memories.{reach_over};

use crate::publishing::moved_size;
use cookie_copy::{CopyFault, copy_in};
use dom_memory::Memory;
use ldc_queue::{Channel, End};
use map_table::{Cookie, MapTable};
use std::alloc::Global;
use std::marker::Model;
use vio_bytes::NoMemory;
use vnet_msg::NetDesc;

/// The most bytes that are copied for a frame: six before it, and zeros up to a multiple of eight.
const MOST_MOVED: usize = 1520;

/// The bytes before the frame in what is copied.
const BEFORE: usize = 6;

/// A frame, as it was copied.
#[derive(Drop)]
pub struct TakenFrame {
    moved: Vec<u8>,
    size: usize,
}

impl Model for TakenFrame {
    ghost use Rattle.std.specs.Prelude.{ℕ, ◌≡◌, ◌≤◌, List, length};
    ghost use Rattle.vnet_msg.specs.Frames.{frame_in};

    ghost Value = { List ℕ };

    ghost view = { λ t. frame_in t.size t.moved.items };

    ghost invariant = { λ t. record {
      moved : length t.moved.items ≡ 1520;
      size : t.size ≤ 1514;
    } };
}

impl TakenFrame {
    /// No byte yet.
    pub fn new(alloc: Global) -> Result<TakenFrame, NoMemory>
        ensures { IfOk result (λ frame. frame ≡ []) }
    {
        let mut moved = Vec::with_capacity(alloc, MOST_MOVED)?;
        moved.resize(MOST_MOVED, 0)?;
        Ok(TakenFrame { moved, size: 0 })
    }

    /// Copies the frame of a descriptor in, out of its buffer, behind six bytes that aren't its own. A copy that is
    /// refused leaves it as it was.
    pub fn copy(
        &mut self,
        channel: &Channel,
        end: End,
        table: &MapTable,
        memory: &Memory,
        desc: &NetDesc,
    ) -> Result<(), CopyFault>
        requires holds { holds_frame desc.now ≡ true }
        requires pages { PagesWithin table.now (length memory.now) }
        ensures fault { MatchResult result (λ _. frame_fault (reach_over channel.now table.now memory.now) desc.now ≡ None) (λ fault. frame_fault (reach_over channel.now table.now memory.now) desc.now ≡ Some fault) }
        ensures copied { OnOk result (self.new ≡ frame_in desc.now.size (moved_in table.now memory.now (data_cookies desc.now) 0 (moved_size desc.now.size))) }
        ensures kept { OnErr result (self.new ≡ self.old) }
    {
        let size = desc.size as usize;
        let cookies = &desc.cookies[..desc.count as usize];
        match copy_front(
            channel,
            end,
            table,
            memory,
            cookies,
            &mut self.moved,
            moved_size(size),
        ) {
            Ok(()) => {
                self.size = size;
                Ok(())
            }
            Err(fault) => Err(fault),
        }
    }

    /// How many bytes the frame has.
    pub fn len(&self) -> u32
        ensures { result ≡ length self.now }
    {
        self.size as u32
    }

    /// The frame's bytes.
    pub fn bytes(&self) -> &[u8]
        ensures { result.now ≡ self.now }
    {
        &self.moved[BEFORE..BEFORE + self.size]
    }
}

/// Copies so many bytes in, to the front.
fn copy_front(
    channel: &Channel,
    end: End,
    table: &MapTable,
    memory: &Memory,
    cookies: &[Cookie],
    moved: &mut [u8],
    len: usize,
) -> Result<(), CopyFault>
    requires len { len ≤ length moved.old }
    requires pages { PagesWithin table.now (length memory.now) }
    ensures fault { MatchResult result (λ _. first_copy_fault (both_up channel.now.wire) Read table.now cookies.now 0 len ≡ None) (λ fault. first_copy_fault (both_up channel.now.wire) Read table.now cookies.now 0 len ≡ Some fault) }
    ensures copied { OnOk result (take len moved.new ≡ moved_in table.now memory.now cookies.now 0 len) }
    ensures kept { OnErr result (moved.new ≡ moved.old) }
    ensures same_length { length moved.new ≡ length moved.old }
{
    copy_in(channel, end, table, memory, cookies, 0, &mut moved[..len])
}
