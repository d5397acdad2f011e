ghost use Rattle.std.specs.Prelude.{◌≡◌, ◌+◌, ◌*◌, ◌≤◌, length, IfOk};
ghost use Rattle.cookie_copy.specs.Faults.{PagesWithin};
ghost use Rattle.ldc_queue.specs.ChannelView.{closed_channel, configured_channel};
ghost use Rattle.ldc_queue.specs.declared.end.End.TheVariants.{B};
ghost use Rattle.lane_models.specs.ServerState.{fresh_server, joined_server, restarted_server};
ghost use Rattle.vdisk_server.specs.OnStore.{StoreAfter, WithinDisk};
ghost use Rattle.vdisk_server.specs.Answering.{SameDisk, Serves, channel_after};

use crate::answers::ServerOut;
use crate::end::ServerEnd;
use dom_memory::Memory;
use flat_store::Region;
use ldc_queue::{Channel, End};
use map_table::MapTable;
use std::alloc::Global;
use std::marker::Model;
use vio_bytes::NoMemory;
use vio_io::Store;

/// The server of a virtual disk, at the end B of its channel (the virtual disk chapter of the UltraSPARC Virtual
/// Machine Specification; `struct vio_disk_desc` and `struct vio_dring_data` of Linux's vio.h).
#[derive(Drop)]
pub struct Server {
    end: ServerEnd,
}

impl Model for Server {
    ghost use Rattle.lane_models.specs.ServerState.{ServerState};
    ghost use Rattle.vdisk_server.specs.Standing.{Stands};

    ghost Value = { ServerState };

    ghost view = { λ s. s.end };

    ghost invariant = { λ s. Stands s.end };
}

impl Server {
    /// The server of a disk that is this region of its store, 1 to 65,536 blocks, which expects of its client a ring of 2 to 256
    /// slots. The one refusal is for want of memory.
    pub fn new(alloc: Global, region: Region, slots: u32) -> Result<Server, NoMemory>
        requires some_blocks { 1 ≤ region.blocks }
        requires most_blocks { region.blocks ≤ 65536 }
        requires some_slots { 2 ≤ slots }
        requires most_slots { slots ≤ 256 }
        ensures { IfOk result (λ s. s ≡ fresh_server region.first region.blocks slots) }
    {
        Ok(Server {
            end: ServerEnd::new(alloc, region, slots)?,
        })
    }

    /// One step, the first rule that applies: the end isn't `Up` (`Joined`). The link has a packet to put, or a message
    /// is owed, of the handshake or the answer to a range (`Sent`, or `Blocked` where the queue is full). A range is in
    /// work, of which the next descriptor is fetched (`Desc`) or the next piece of the one in work is done (`Moved`,
    /// `Stored`, `Finished`). A packet waits (`Took`); `Idle`. A packet that it can't take, or a descriptor that it
    /// can't fetch or end, resets the end (`Reset`). `table` and `memory` are the client's.
    pub fn step<D: Store>(
        &mut self,
        channel: &mut Channel,
        table: &MapTable,
        memory: &mut Memory,
        store: &mut D,
    ) -> ServerOut
        requires region { 512 * (self.old.first + self.old.blocks) ≤ D.size store.old }
        requires pages { PagesWithin table.now (length memory.old) }
        ensures step { Serves self.old channel.old table.now memory.old (D.content store.old) result self.new memory.new (D.content store.new) }
        ensures channel { channel.new ≡ channel_after result channel.old }
        ensures same_length { length memory.new ≡ length memory.old }

        // The store is called once for a unit or a flush, and not at all in any other step. A flush flushes it, and no
        // other step does.
        ensures store { StoreAfter D.Store result store.old store.new }
        ensures size { D.size store.new ≡ D.size store.old }
        ensures within { WithinDisk self.old.blocks result }
        ensures disk { SameDisk self.old self.new }
    {
        let mut out = ServerOut::Idle;
        self.step_into(channel, table, memory, store, &mut out);
        out
    }

    /// The same, whose answer is written into the caller's, so that it isn't copied from function to function.
    pub fn step_into<D: Store>(
        &mut self,
        channel: &mut Channel,
        table: &MapTable,
        memory: &mut Memory,
        store: &mut D,
        out: &mut ServerOut,
    )
        requires region { 512 * (self.old.first + self.old.blocks) ≤ D.size store.old }
        requires pages { PagesWithin table.now (length memory.old) }
        ensures step { Serves self.old channel.old table.now memory.old (D.content store.old) out.new self.new
            memory.new (D.content store.new) }
        ensures channel { channel.new ≡ channel_after out.new channel.old }
        ensures same_length { length memory.new ≡ length memory.old }

        // The store is called once for a unit or a flush, and not at all in any other step. A flush flushes it, and no
        // other step does.
        ensures store { StoreAfter D.Store out.new store.old store.new }
        ensures size { D.size store.new ≡ D.size store.old }
        ensures within { WithinDisk self.old.blocks out.new }
        ensures disk { SameDisk self.old self.new }
    {
        self.end.step(channel, table, memory, store, out);
    }

    /// Ends the session and all half-done work, and configures the end.
    pub fn reset(&mut self, channel: &mut Channel)
        ensures state { self.new ≡ joined_server self.old }
        ensures channel { channel.new ≡ configured_channel B channel.old }
    {
        self.end.begin_anew(channel);
    }

    /// The same, with all its values made new.
    pub fn restart(&mut self, channel: &mut Channel)
        ensures state { self.new ≡ restarted_server self.old }
        ensures channel { channel.new ≡ configured_channel B channel.old }
    {
        self.end.forget();
        channel.configure(End::B);
    }

    /// Makes all its values new, and closes the end.
    pub fn stop(&mut self, channel: &mut Channel)
        ensures state { self.new ≡ restarted_server self.old }
        ensures channel { channel.new ≡ closed_channel B channel.old }
    {
        self.end.forget();
        channel.close(End::B);
    }
}
