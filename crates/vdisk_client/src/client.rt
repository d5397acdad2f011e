ghost use Rattle.std.specs.Prelude.{◌≡◌, ◌-◌, ◌^◌, ◌<◌, ◌≤◌, length, not, true, false, IfOk};
ghost use Rattle.ldc_queue.specs.ChannelView.{configured_channel};
ghost use Rattle.ldc_queue.specs.declared.end.End.TheVariants.{A};
ghost use Rattle.vdisk_msg.specs.Fills.{IsRequest};

use crate::answers::{ClientOut, IssueFault};
use crate::end::ClientEnd;
use dom_memory::Memory;
use ldc_queue::Channel;
use std::alloc::Global;
use std::marker::Model;
use vdisk_msg::Request;
use vio_bytes::NoMemory;

/// A disk's client, whose end of the channel is A. What waits in its ring, and the data, stand in the memory that its
/// step is given.
#[derive(Drop)]
pub struct Client {
    end: ClientEnd,
}

impl Model for Client {
    ghost use Rattle.lane_models.specs.ClientState.{ClientState};
    ghost use Rattle.vdisk_client.specs.Standing.{Stands};

    ghost Value = { ClientState };

    ghost view = { λ c. c.end };

    ghost invariant = { λ c. Stands c.end };
}

impl Client {
    ghost use Rattle.lane_models.specs.ClientState.{ever_published_count, fresh_client, is_finished, joined_client};
    ghost use Rattle.lane_models.specs.ClientStep.{ClientAdmits};
    ghost use Rattle.vdisk_client.specs.Calls.{Steps, admitted, front_count};
    ghost use Rattle.disk_requests.specs.Room.{HoldsRing};

    /// The client of a disk of so many blocks, up to 65,536, with a ring of so many slots, 2 to 256. Its one refusal
    /// is for want of memory.
    pub fn new(alloc: Global, blocks: u64, slots: u32) -> Result<Client, NoMemory>
        requires few_blocks { blocks ≤ 65536 }
        requires some_slots { 2 ≤ slots }
        requires few_slots { slots ≤ 256 }
        ensures { IfOk result (λ client. client ≡ fresh_client blocks slots) }
    {
        let end = ClientEnd::new(alloc, blocks, slots)?;
        Ok(Client { end })
    }

    /// Takes a request up, which is pending last, and answers its id: 0, 1, 2 and so on. Else the answer is the first
    /// of `Count`, `Range` and `Full` that holds, and nothing changes. A fill has 1 to 1,024 bytes.
    pub fn issue(&mut self, request: &Request) -> Result<u64, IssueFault>
        requires fill { IsRequest request.now }
        requires few { self.old.next_id < 2 ^ 64 - 1 }
        ensures { ClientAdmits self.old (admitted result request.now) self.new }
    {
        self.end.issue(request)
    }

    /// Makes one step, the first rule that applies: the end isn't `Up` (`Joined`). An acknowledged request isn't done,
    /// and its slot is looked at (`Done`, or `Reset` where it isn't DONE). A handshake owes something, or the link
    /// holds a packet and no session is open (`Sent`, or `Blocked` where the queue is full). A packet waits (`Took`, or
    /// `Reset` for what is wrong with it); the link holds a packet (`Sent`, `Blocked`). A pending request isn't
    /// published (`Published`); published requests aren't announced, all of them by one INFO (`Sent`, `Blocked`);
    /// `Idle`. The memory has the pages of the ring, and four for each slot.
    pub fn step(&mut self, channel: &mut Channel, memory: &mut Memory) -> ClientOut
        requires { HoldsRing self.old.slots memory.old }
        ensures step { Steps self.old channel.old memory.old result self.new channel.new memory.new }
        ensures same_slots { self.new.slots ≡ self.old.slots }
        ensures same_ids { self.new.next_id ≡ self.old.next_id }
        ensures same_length { length memory.new ≡ length memory.old }
    {
        let mut out = ClientOut::Idle;
        self.step_into(channel, memory, &mut out);
        out
    }

    /// The same, whose answer is written into the caller's, so that it isn't copied from function to function.
    pub fn step_into(&mut self, channel: &mut Channel, memory: &mut Memory, out: &mut ClientOut)
        requires { HoldsRing self.old.slots memory.old }
        ensures step { Steps self.old channel.old memory.old out.new self.new channel.new memory.new }
        ensures same_slots { self.new.slots ≡ self.old.slots }
        ensures same_ids { self.new.next_id ≡ self.old.next_id }
        ensures same_length { length memory.new ≡ length memory.old }
    {
        self.end.step(channel, memory, out);
    }

    /// The bytes of the last completion.
    pub fn bytes(&self) -> &[u8]
        ensures { result.now ≡ self.now.last }
    {
        self.end.bytes()
    }

    /// Configures the end and begins anew, in any state. The pending requests stay, and all ids.
    pub fn reset(&mut self, channel: &mut Channel)
        ensures state { self.new ≡ joined_client self.old }
        ensures channel { channel.new ≡ configured_channel A channel.old }
    {
        self.end.join(channel);
    }

    /// Nothing comes any more: resets a client that isn't finished, and tells whether it did.
    pub fn tick(&mut self, channel: &mut Channel) -> bool
        ensures told { result ≡ not (is_finished self.old) }
        ensures reset { result ≡ true
            → (self.new ≡ joined_client self.old) × (channel.new ≡ configured_channel A channel.old) }
        ensures calm { result ≡ false → (self.new ≡ self.old) × (channel.new ≡ channel.old) }
    {
        let finished = self.finished();
        if !finished {
            self.reset(channel);
        }
        !finished
    }

    /// Whether the session is open and nothing is pending.
    pub fn finished(&self) -> bool
        ensures { result ≡ is_finished self.now }
    {
        self.end.finished()
    }

    /// How many requests are pending.
    pub fn pending(&self) -> u32
        ensures count { result ≡ length self.now.pending }
        ensures within { result ≤ self.now.slots }
    {
        self.end.pending()
    }

    /// How many of the pending requests were ever published.
    pub fn mark(&self) -> u32
        ensures { result ≡ ever_published_count self.now }
    {
        self.end.mark()
    }

    /// How many bytes the completion of the first pending request carries at status 0, and 0 where none is pending.
    pub fn front_len(&self) -> u32
        ensures { result ≡ front_count self.now.pending }
    {
        self.end.front_len()
    }
}
