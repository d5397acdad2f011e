ghost use Rattle.std.specs.Prelude.{◌≡◌, ◌+◌, ◌*◌, ◌<◌, ◌≤◌, ◌^◌, ◌-◌, IfOk, length, not};
ghost use Rattle.ldc_queue.specs.declared.end.End.TheVariants.{B};
ghost use Rattle.vdisk_msg.specs.Fills.{IsRequest};
ghost use Rattle.lane_models.specs.ClientState.{is_finished};
ghost use Rattle.lane_models.specs.DiskEvent.{Asks};
ghost use Rattle.lane_models.specs.LaneState.{fresh, IsShape};
ghost use Rattle.lane_models.specs.LaneStep.{LaneStep};
ghost use Rattle.lane_models.specs.Reached.{IsReached};
ghost use Rattle.lane_models.specs.Served.{Served};
ghost use Rattle.vdisk_client.specs.Calls.{TellsLength, admitted, client_event, front_count};
ghost use Rattle.disk_lane.specs.Events.{ResetsOwn, StoreAfterOf, answered, injected_event, lost_event, poked_event};
ghost use Rattle.disk_lane.specs.Events.{reset_event, restart_event, served_event, start_event, stop_event, tick_event};

use crate::lane_ends::LaneEnds;
use flat_store::Region;
use ldc_queue::{End, PutFault};
use std::alloc::Global;
use std::marker::Model;
use vdisk_client::{ClientOut, IssueFault};
use vdisk_msg::Request;
use vdisk_server::ServerOut;
use vio_bytes::NoMemory;
use vio_io::Store;

/// A virtual disk with both its ends: a guest's client and a service domain's server on one channel, the client's memory, and
/// the table that grants each of its pages to the server. What always holds of a lane is that some calls led there from a
/// fresh one; the laws of such lanes stand in `lane_laws`.
#[derive(Drop)]
pub struct DiskLane {
    ends: LaneEnds,
}

impl Model for DiskLane {
    ghost use Rattle.lane_models.specs.LaneState.{LaneState};
    ghost use Rattle.lane_models.specs.Reached.{IsReached};

    ghost Value = { LaneState };

    ghost view = { λ l. l.ends };

    ghost invariant = { λ l. IsReached l.ends };
}

impl DiskLane {
    /// The lane of a disk that is this region of its store, 1 to 65,536 blocks, with a ring of so many slots, 2 to 256, and
    /// queues of so many entries, 8 to 256, both powers of two. No end is configured, nothing is pending, and the server runs.
    /// The one refusal is for want of memory.
    pub fn new(
        alloc: Global,
        region: Region,
        slots: u32,
        entries: u32,
    ) -> Result<DiskLane, NoMemory>
        requires { IsShape (record { first = region.first; blocks = region.blocks; slots = slots; entries = entries }) }
        ensures { IfOk result (λ lane. lane ≡ fresh (record { first = region.first; blocks = region.blocks; slots = slots; entries = entries })) }
    {
        Ok(DiskLane {
            ends: LaneEnds::new(alloc, region, slots, entries)?,
        })
    }

    /// Takes a request up, which is pending last, and answers its id: 0, 1, 2 and so on. Else the answer is the first
    /// of `Count`, `Range` and `Full` that holds, and nothing changes.
    #[tactic(auto, using(crate::proofs::Reaching::keeps_shape))]
    pub fn issue(&mut self, request: &Request) -> Result<u64, IssueFault>
        requires fill { IsRequest request.now }
        requires few { self.old.client.next_id < 2 ^ 64 - 1 }
        ensures step { LaneStep self.old (Asks (admitted result request.now)) self.new }
        ensures shape { self.new.shape ≡ self.old.shape }
    {
        self.ends.issue(request)
    }

    /// Makes one step of the client. `bytes` shows what a completion carries.
    pub fn step_client(&mut self) -> ClientOut
        ensures step { LaneStep self.old (client_event result self.new.client.last) self.new }
        ensures count { TellsLength result self.new.client.last }
        ensures own { ResetsOwn result }
        ensures shape { self.new.shape ≡ self.old.shape }
    {
        let mut out = ClientOut::Idle;
        self.step_client_into(&mut out);
        out
    }

    /// The same, whose answer is written into the caller's, so that it isn't copied from function to function.
    #[tactic(auto, using(crate::proofs::Reaching::keeps_shape))]
    pub fn step_client_into(&mut self, out: &mut ClientOut)
        ensures step { LaneStep self.old (client_event out.new self.new.client.last) self.new }
        ensures count { TellsLength out.new self.new.client.last }
        ensures own { ResetsOwn out.new }
        ensures shape { self.new.shape ≡ self.old.shape }
    {
        self.ends.step_client_into(out);
    }

    /// Makes one step of the server over its store, and answers `None` where it is stopped. A step calls the store once for a
    /// unit or a flush, and else not at all. A flush flushes it, and no other step does.
    pub fn step_server<D: Store>(&mut self, store: &mut D) -> Option<ServerOut>
        requires region { 512 * (self.old.shape.first + self.old.shape.blocks) ≤ D.size store.old }
        ensures step { Served self.old (D.content store.old) (served_event result) self.new (D.content store.new) }
        ensures store { StoreAfterOf D.Store result store.old store.new }
        ensures size { D.size store.new ≡ D.size store.old }
        ensures shape { self.new.shape ≡ self.old.shape }
    {
        let mut out = ServerOut::Idle;
        if self.step_server_into(store, &mut out) {
            Some(out)
        } else {
            None
        }
    }

    /// The same, whose answer is written into the caller's. Tells whether the server runs; of the answer of one that is
    /// stopped nothing is said.
    #[tactic(auto, using(crate::proofs::Reaching::served_shape))]
    pub fn step_server_into<D: Store>(&mut self, store: &mut D, out: &mut ServerOut) -> bool
        requires region { 512 * (self.old.shape.first + self.old.shape.blocks) ≤ D.size store.old }
        ensures step { Served self.old (D.content store.old) (served_event (answered result out.new)) self.new
            (D.content store.new) }
        ensures store { StoreAfterOf D.Store (answered result out.new) store.old store.new }
        ensures size { D.size store.new ≡ D.size store.old }
        ensures shape { self.new.shape ≡ self.old.shape }
    {
        let runs = self.ends.running();
        if runs {
            self.ends.step_server_into(store, out);
        }
        runs
    }

    /// Resets an end, which begins anew, and tells whether it did: a stopped server's end isn't reset.
    #[tactic(auto, using(crate::proofs::Reaching::keeps_shape))]
    pub fn reset(&mut self, end: End) -> bool
        ensures step { LaneStep self.old (reset_event end result) self.new }
        ensures shape { self.new.shape ≡ self.old.shape }
    {
        match end {
            End::A => {
                self.ends.reset_client();
                true
            }
            End::B => self.reset_server(),
        }
    }

    /// Restarts the server, all of whose values are made new, and tells whether it did: a stopped one isn't restarted.
    #[tactic(auto, using(crate::proofs::Reaching::keeps_shape))]
    pub fn restart(&mut self) -> bool
        ensures step { LaneStep self.old (restart_event result) self.new }
        ensures shape { self.new.shape ≡ self.old.shape }
    {
        let runs = self.ends.running();
        if runs {
            self.ends.restart();
        }
        runs
    }

    /// Stops the server and closes its end, and tells whether it ran.
    #[tactic(auto, using(crate::proofs::Reaching::keeps_shape))]
    pub fn stop(&mut self) -> bool
        ensures step { LaneStep self.old (stop_event result) self.new }
        ensures shape { self.new.shape ≡ self.old.shape }
    {
        let runs = self.ends.running();
        if runs {
            self.ends.stop();
        }
        runs
    }

    /// Starts the server, and tells whether it was stopped.
    #[tactic(auto, using(crate::proofs::Reaching::keeps_shape))]
    pub fn start(&mut self) -> bool
        ensures step { LaneStep self.old (start_event result) self.new }
        ensures shape { self.new.shape ≡ self.old.shape }
    {
        let stopped = !self.ends.running();
        if stopped {
            self.ends.start();
        }
        stopped
    }

    /// Nothing comes any more: resets a client that isn't finished, and tells whether it did.
    #[tactic(auto, using(crate::proofs::Reaching::keeps_shape))]
    pub fn tick(&mut self) -> bool
        ensures step { LaneStep self.old (tick_event result) self.new }
        ensures shape { self.new.shape ≡ self.old.shape }
    {
        self.ends.tick()
    }

    /// Loses the packet that has waited longest for an end. `None` where none waits.
    #[tactic(auto, using(crate::proofs::Reaching::keeps_shape))]
    pub fn lose(&mut self, end: End) -> Option<[u8; 64]>
        ensures step { LaneStep self.old (lost_event end result) self.new }
        ensures shape { self.new.shape ≡ self.old.shape }
    {
        self.ends.lose(end)
    }

    /// Makes a packet wait last for an end, though its peer never put it. Refused where the end isn't `Up`, and where its
    /// queue is full: then nothing changes.
    #[tactic(auto, using(crate::proofs::Reaching::keeps_shape))]
    pub fn inject(&mut self, end: End, packet: &[u8; 64]) -> Result<(), PutFault>
        ensures step { LaneStep self.old (injected_event end packet.now result) self.new }
        ensures shape { self.new.shape ≡ self.old.shape }
    {
        self.ends.inject(end, packet)
    }

    /// Writes bytes into the client's memory from a place on, though the client never wrote them. False where they don't
    /// lie within it: then nothing changes. The server has no memory.
    #[tactic(auto, using(crate::proofs::Reaching::keeps_shape))]
    pub fn poke(&mut self, at: u64, bytes: &[u8]) -> bool
        ensures step { LaneStep self.old (poked_event at bytes.now result) self.new }
        ensures shape { self.new.shape ≡ self.old.shape }
    {
        self.ends.poke(at, bytes)
    }

    /// Tells that some calls led here from a fresh lane, whose laws stand in `lane_laws`: they hold of this lane where this
    /// was called. It does nothing.
    pub fn reached(&self)
        ensures { IsReached self.now }
    {
        let _ = &self.ends;
    }

    /// Whether the client's session is open and nothing is pending.
    pub fn finished(&self) -> bool
        ensures { result ≡ is_finished self.now.client }
    {
        self.ends.finished()
    }

    /// Whether the server runs.
    pub fn running(&self) -> bool
        ensures { result ≡ not self.now.stopped }
    {
        self.ends.running()
    }

    /// How many requests are pending.
    pub fn pending(&self) -> u32
        ensures { result ≡ length self.now.client.pending }
    {
        self.ends.pending()
    }

    /// How many bytes the completion of the first pending request carries at status 0, and 0 where none is pending.
    pub fn front_len(&self) -> u32
        ensures { result ≡ front_count self.now.client.pending }
    {
        self.ends.front_len()
    }

    /// The bytes of the last completion.
    pub fn bytes(&self) -> &[u8]
        ensures { result.now ≡ self.now.client.last }
    {
        self.ends.bytes()
    }

    // A stopped server's end isn't reset.
    fn reset_server(&mut self) -> bool
        ensures { LaneStep self.old (reset_event B result) self.new }
    {
        let runs = self.ends.running();
        if runs {
            self.ends.reset_server();
        }
        runs
    }
}
