// The two ends of a disk with all that stands between them. Each call is one event of the disk's lane.

ghost use Rattle.std.specs.Prelude.{◌≡◌, ◌+◌, ◌*◌, ◌<◌, ◌≤◌, ◌^◌, ◌-◌, ◌||◌, IfOk, length, not, true, false};
ghost use Rattle.ldc_queue.specs.declared.end.End.TheVariants.{A, B};
ghost use Rattle.vdisk_msg.specs.Fills.{IsRequest};
ghost use Rattle.lane_models.specs.ClientState.{is_finished};
ghost use Rattle.lane_models.specs.DiskEvent.{Asks};
ghost use Rattle.lane_models.specs.LaneState.{fresh, IsShape};
ghost use Rattle.lane_models.specs.LaneStep.{LaneStep, stored_blocks};
ghost use Rattle.lane_models.specs.Served.{Served};
ghost use Rattle.vdisk_client.specs.Calls.{TellsLength, admitted, client_event, front_count};
ghost use Rattle.vdisk_server.specs.OnStore.{StoreAfter};
ghost use Rattle.vdisk_server.specs.Answering.{server_event};
ghost use Rattle.disk_lane.specs.Events.{ResetsOwn, injected_event, lost_event, poked_event, reset_event, restart_event, start_event, stop_event, tick_event};
ghost use Rattle.disk_lane.specs.Noted.{noted};

use crate::granting::pages_for;
use crate::near::Near;
use dom_memory::{Memory, PAGE};
use flat_store::Region;
use ldc_queue::{Channel, ChannelState, End, PutFault};
use map_table::MapTable;
use memory_grant::own_table;
use std::alloc::Global;
use std::marker::Model;
use vdisk_client::{Client, ClientOut, IssueFault};
use vdisk_msg::Request;
use vdisk_server::{Server, ServerOut};
use vio_bytes::NoMemory;
use vio_io::Store;

/// The client is at the end A of the channel, the server at B.
#[derive(Drop)]
pub struct LaneEnds {
    region: Region,
    slots: u32,
    channel: Channel,
    table: MapTable,
    memory: Memory,
    client: Client,
    server: Server,
    stopped: bool,
    forged: bool,
    lossy: bool,
    failed: bool,
    near: Near,
}

impl Model for LaneEnds {
    ghost use Rattle.lane_models.specs.LaneState.{LaneState};
    ghost use Rattle.disk_lane.specs.Fields.{FitsShape, state_of};

    ghost Value = { LaneState };

    ghost view = { λ l. state_of l };

    ghost invariant = { λ l. FitsShape l };
}

impl LaneEnds {
    /// No end is configured, nothing was asked, and the server runs.
    pub fn new(
        alloc: Global,
        region: Region,
        slots: u32,
        entries: u32,
    ) -> Result<LaneEnds, NoMemory>
        requires { IsShape (record { first = region.first; blocks = region.blocks; slots = slots; entries = entries }) }
        ensures { IfOk result (λ lane. lane ≡ fresh (record { first = region.first; blocks = region.blocks; slots = slots; entries = entries })) }
    {
        let pages = pages_for(slots);
        Ok(LaneEnds {
            region,
            slots,
            channel: Channel::new(alloc, entries)?,
            table: own_table(alloc, pages)?,
            memory: Memory::new(alloc, pages)?,
            client: Client::new(alloc, region.blocks, slots)?,
            server: Server::new(alloc, region, slots)?,
            stopped: false,
            forged: false,
            lossy: false,
            failed: false,
            near: Near::new(),
        })
    }

    /// Asks the client for a request.
    pub fn issue(&mut self, request: &Request) -> Result<u64, IssueFault>
        requires fill { IsRequest request.now }
        requires few { self.old.client.next_id < 2 ^ 64 - 1 }
        ensures { LaneStep self.old (Asks (admitted result request.now)) self.new }
    {
        self.client.issue(request)
    }

    /// One step of the client, whose answer is written into the caller's.
    pub fn step_client_into(&mut self, out: &mut ClientOut)
        ensures step { LaneStep self.old (client_event out.new self.new.client.last) self.new }
        ensures count { TellsLength out.new self.new.client.last }
        ensures own { ResetsOwn out.new }
    {
        self.client
            .step_into(&mut self.channel, &mut self.memory, out);
        self.note_client(out);
    }

    /// One step of the server, which runs. Its answer is written into the caller's.
    pub fn step_server_into<D: Store>(&mut self, store: &mut D, out: &mut ServerOut)
        requires runs { self.old.stopped ≡ false }
        requires region { 512 * (self.old.shape.first + self.old.shape.blocks) ≤ D.size store.old }
        ensures step { Served self.old (D.content store.old) (server_event out.new) self.new (D.content store.new) }
        ensures store { StoreAfter D.Store out.new store.old store.new }
        ensures size { D.size store.new ≡ D.size store.old }
    {
        self.server.step_into(&mut self.channel, &self.table, &mut self.memory, store, out);
        self.note_server(out);
    }

    /// Resets the client.
    pub fn reset_client(&mut self)
        ensures { LaneStep self.old (reset_event A true) self.new }
    {
        let was = self.channel.state(End::A);
        self.client.reset(&mut self.channel);
        self.disturbed(was);
    }

    /// Resets the server, which runs.
    pub fn reset_server(&mut self)
        requires { self.old.stopped ≡ false }
        ensures { LaneStep self.old (reset_event B true) self.new }
    {
        let was = self.channel.state(End::B);
        self.server.reset(&mut self.channel);
        self.disturbed(was);
    }

    /// Restarts the server, which runs.
    pub fn restart(&mut self)
        requires { self.old.stopped ≡ false }
        ensures { LaneStep self.old (restart_event true) self.new }
    {
        let was = self.channel.state(End::B);
        self.server.restart(&mut self.channel);
        self.disturbed(was);
    }

    /// Stops the server, which runs.
    pub fn stop(&mut self)
        requires { self.old.stopped ≡ false }
        ensures { LaneStep self.old (stop_event true) self.new }
    {
        self.server.stop(&mut self.channel);
        self.near.disturb(self.client.mark());
        self.lossy = false;
        self.stopped = true;
    }

    /// Starts the server, which is stopped.
    pub fn start(&mut self)
        requires { self.old.stopped ≡ true }
        ensures { LaneStep self.old (start_event true) self.new }
    {
        self.stopped = false;
    }

    /// A tick of the client, which is reset unless it is finished.
    pub fn tick(&mut self) -> bool
        ensures { LaneStep self.old (tick_event result) self.new }
    {
        let was = self.channel.state(End::A);
        let reset = self.client.tick(&mut self.channel);
        if reset {
            self.disturbed(was);
        }
        reset
    }

    /// Loses the packet that has waited longest for the end, if one waits.
    pub fn lose(&mut self, end: End) -> Option<[u8; 64]>
        ensures { LaneStep self.old (lost_event end result) self.new }
    {
        let packet = self.channel.lose(end);
        if packet.is_some() {
            self.lossy = true;
        }
        packet
    }

    /// Makes a packet wait last for the end, though its peer never put it.
    pub fn inject(&mut self, end: End, packet: &[u8; 64]) -> Result<(), PutFault>
        ensures { LaneStep self.old (injected_event end packet.now result) self.new }
    {
        let injected = self.channel.forge(end, packet);
        if injected.is_ok() {
            self.forged = true;
        }
        injected
    }

    /// Writes bytes into the client's memory, though the client never wrote them. The server has none.
    pub fn poke(&mut self, at: u64, bytes: &[u8]) -> bool
        ensures { LaneStep self.old (poked_event at bytes.now result) self.new }
    {
        let size = self.memory.pages() as u64 * PAGE as u64;
        if size < at || size - at < bytes.len() as u64 {
            return false;
        }
        self.memory.write(at, bytes);
        self.forged = true;
        true
    }

    /// Whether the client's session is open and nothing is pending.
    pub fn finished(&self) -> bool
        ensures { result ≡ is_finished self.now.client }
    {
        self.client.finished()
    }

    /// Whether the server runs.
    pub fn running(&self) -> bool
        ensures { result ≡ not self.now.stopped }
    {
        !self.stopped
    }

    /// How many requests are pending.
    pub fn pending(&self) -> u32
        ensures { result ≡ length self.now.client.pending }
    {
        self.client.pending()
    }

    /// How many bytes the first pending request gives at status 0.
    pub fn front_len(&self) -> u32
        ensures { result ≡ front_count self.now.client.pending }
    {
        self.client.front_len()
    }

    /// The bytes of the last completion.
    pub fn bytes(&self) -> &[u8]
        ensures { result.now ≡ self.now.client.last }
    {
        self.client.bytes()
    }
}

impl LaneEnds {
    ghost use Rattle.lane_models.specs.LaneState.{near_disturbed};
    ghost use Rattle.lane_models.specs.WireLog.{lossy_behind};

    // An end that was in this state began anew.
    fn disturbed(&mut self, was: ChannelState)
        ensures { self.new ≡ record self.old {
          wire = record self.old.wire { lossy = lossy_behind was self.old.wire.lossy };
          near = near_disturbed self.old.client;
        } }
    {
        if was == ChannelState::Up {
            self.lossy = false;
        }
        self.near.disturb(self.client.mark());
    }

    // Notes what the client did. A step resets an end that is up, and joins one that isn't, which leaves what is known of
    // lost packets.
    fn note_client(&mut self, out: &ClientOut)
        ensures { self.new ≡ noted (client_event out.now self.old.client.last) self.old }
    {
        match out {
            ClientOut::Reset { .. } => self.disturbed(ChannelState::Up),
            ClientOut::Done { .. } => self.near.complete(),
            _ => {}
        }
    }

    // Notes what the server did, likewise.
    fn note_server(&mut self, out: &ServerOut)
        ensures { self.new ≡ noted (server_event out.now) self.old }
    {
        match out {
            ServerOut::Reset { .. } => self.disturbed(ChannelState::Up),
            ServerOut::Finished { .. } => self.near.finish(),
            ServerOut::Stored {
                operation,
                count,
                failed,
                ..
            } => self.note_store(*operation, *count, *failed),
            _ => {}
        }
    }

    // Notes a call of the store.
    fn note_store(&mut self, operation: u8, count: u32, failed: bool)
        ensures { self.new ≡ record self.old {
          failed = self.old.failed || failed;
          near = record self.old.near { u = stored_blocks operation count failed self.old.near.u };
        } }
    {
        self.near.store(operation, count, failed);
        self.failed = self.failed || failed;
    }
}
