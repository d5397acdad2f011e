// The client without what always holds of it: its fields, and the calls that change them.

ghost use Rattle.std.specs.Prelude.{◌≡◌, ◌≢◌, ◌+◌, ◌-◌, ◌^◌, ◌<◌, ◌≤◌, ◌↔◌, None, Some, length, IfErr, IfOk, OnOk, IsTrue};
ghost use Rattle.circular_buffer.specs.Buffer.{buffer};
ghost use Rattle.ldc_queue.specs.ChannelView.{configured_channel};
ghost use Rattle.ldc_queue.specs.declared.end.End.TheVariants.{A};
ghost use Rattle.vdisk_msg.specs.Fills.{IsRequest};
ghost use Rattle.vdisk_msg.specs.Requests.{AreSound, BadCount, BadRange, defect};
ghost use Rattle.vdisk_client.specs.declared.answers.ClientOut.TheVariants.{Reset};

use crate::answers::{ClientOut, IssueFault};
use crate::session::OpenSession;
use circular_buffer::HeapCircularBuffer;
use disk_requests::client_offer;
use ldc_link::{Link, Role};
use ldc_queue::{Channel, End};
use std::alloc::Global;
use std::marker::Model;
use vdisk_msg::{BLOCK, MOST_BLOCKS, MOST_BYTES, Request};
use vio_bytes::NoMemory;
use vio_handshake::Handshake;
use vio_tag::Cause;

/// The client's link and handshake, its requests, and the session that is open. Between its calls all is so that the
/// next one may come, which `Client` keeps.
#[derive(Drop)]
pub(crate) struct ClientEnd {
    pub(crate) link: Link,
    pub(crate) handshake: Handshake,
    pub(crate) blocks: u64,
    pub(crate) slots: u32,
    /// The requests that were taken up and aren't done.
    pub(crate) pending: HeapCircularBuffer<Request>,
    pub(crate) next_id: u64,
    /// The ids below it were published, in this session or an earlier one.
    pub(crate) ever_published: u64,
    pub(crate) session: Option<OpenSession>,
    /// The bytes of the last completion, at its front.
    pub(crate) buffer: Vec<u8>,
    pub(crate) given: usize,
}

impl Model for ClientEnd {
    ghost use Rattle.std.specs.Prelude.{◌≡◌, ◌≤◌, length, take};
    ghost use Rattle.lane_models.specs.ClientState.{ClientState};
    ghost use Rattle.vdisk_msg.specs.Check.{most_bytes};

    ghost Value = { ClientState };

    ghost view = { λ c. record {
      link = c.link;
      handshake = c.handshake;
      blocks = c.blocks;
      slots = c.slots;
      pending = c.pending.items;
      next_id = c.next_id;
      ever_published = c.ever_published;
      session = c.session;
      last = take c.given c.buffer.items;
    } };

    ghost invariant = { λ c. record {
      ring : c.pending.capacity ≡ c.slots;
      slots : c.slots ≤ 256;
      buffer : length c.buffer.items ≡ most_bytes;
      given : c.given ≤ most_bytes;
    } };
}

impl ClientEnd {
    ghost use Rattle.lane_models.specs.ClientState.{ever_published_count, first_id, fresh_client, is_finished, joined_client};
    ghost use Rattle.lane_models.specs.ClientStep.{ClientAdmits};
    ghost use Rattle.vdisk_client.specs.Calls.{admitted, front_count};

    /// A client that isn't configured.
    pub(crate) fn new(alloc: Global, blocks: u64, slots: u32) -> Result<ClientEnd, NoMemory>
        requires { slots ≤ 256 }
        ensures { IfOk result (λ client. client ≡ fresh_client blocks slots) }
    {
        let pending = HeapCircularBuffer::with_capacity(alloc, slots as usize)?;
        let mut buffer = Vec::with_capacity(alloc, MOST_BYTES as usize)?;
        buffer.resize(MOST_BYTES as usize, 0)?;
        Ok(ClientEnd {
            link: Link::new(Role::Initiator),
            handshake: Handshake::new(Role::Initiator, &client_offer(blocks, slots)),
            blocks,
            slots,
            pending,
            next_id: 0,
            ever_published: 0,
            session: None,
            buffer,
            given: 0,
        })
    }

    /// Takes a request up and answers its id, or says why not.
    pub(crate) fn issue(&mut self, request: &Request) -> Result<u64, IssueFault>
        requires few_blocks { self.old.blocks ≤ 65536 }
        requires few { length self.old.pending ≤ self.old.slots }
        requires fill { IsRequest request.now }
        requires ids { self.old.next_id < 2 ^ 64 - 1 }
        ensures { ClientAdmits self.old (admitted result request.now) self.new }
    {
        check_blocks(self.blocks, request)?;
        match self.pending.try_push_back(*request) {
            Ok(()) => {
                let id = self.next_id;
                self.next_id += 1;
                Ok(id)
            }
            Err(_) => Err(IssueFault::Full),
        }
    }

    /// Configures the end, and begins anew. The requests stay, and all ids.
    pub(crate) fn join(&mut self, channel: &mut Channel)
        ensures state { self.new ≡ joined_client self.old }
        ensures channel { channel.new ≡ configured_channel A channel.old }
    {
        self.link.join(channel, End::A);
        self.handshake.drop_session();
        self.session = None;
    }

    /// The same, for a cause that a step found.
    pub(crate) fn fail(
        &mut self,
        channel: &mut Channel,
        cause: Cause,
        packet: Option<[u8; 64]>,
        out: &mut ClientOut,
    )
        ensures answer { out.new ≡ Reset cause packet }
        ensures state { self.new ≡ joined_client self.old }
        ensures channel { channel.new ≡ configured_channel A channel.old }
    {
        self.join(channel);
        *out = ClientOut::Reset { cause, packet };
    }

    /// The id of the first pending request, or of the next where none is pending.
    pub(crate) fn first_id(&self) -> u64
        requires { length self.now.pending ≤ self.now.next_id }
        ensures { result ≡ first_id self.now }
    {
        self.next_id - self.pending.len() as u64
    }

    /// The bytes of the last completion.
    pub(crate) fn bytes(&self) -> &[u8]
        ensures { result.now ≡ self.now.last }
    {
        &self.buffer[..self.given]
    }

    /// Whether the session is open and nothing is pending.
    pub(crate) fn finished(&self) -> bool
        ensures { result ≡ is_finished self.now }
    {
        self.session.is_some() && self.pending.is_empty()
    }

    /// How many requests are pending.
    pub(crate) fn pending(&self) -> u32
        ensures count { result ≡ length self.now.pending }
        ensures within { result ≤ self.now.slots }
    {
        self.pending.len() as u32
    }

    /// How many of the pending requests were ever published.
    pub(crate) fn mark(&self) -> u32
        requires few { length self.now.pending ≤ self.now.slots }
        requires ids { length self.now.pending ≤ self.now.next_id }
        requires ever { self.now.ever_published ≤ self.now.next_id }
        ensures { result ≡ ever_published_count self.now }
    {
        self.ever_published.saturating_sub(self.first_id()) as u32
    }

    /// How many bytes the completion of the first pending request carries at status 0.
    pub(crate) fn front_len(&self) -> u32
        requires { AreSound self.now.blocks self.now.pending }
        ensures { result ≡ front_count self.now.pending }
    {
        match self.pending.front() {
            Some(Request::Read { count, .. }) => (BLOCK * *count) as u32,
            _ => 0,
        }
    }
}

/// The count of a read or a write is 1 to 64, and its blocks are the disk's.
fn check_blocks(blocks: u64, request: &Request) -> Result<(), IssueFault>
    requires { blocks ≤ 65536 }
    ensures ok { OnOk result (defect blocks request.now ≡ None) }
    ensures count { result ≡ Err IssueFault.Count → defect blocks request.now ≡ Some BadCount }
    ensures range { result ≡ Err IssueFault.Range → defect blocks request.now ≡ Some BadRange }
    ensures full { result ≢ Err IssueFault.Full }
{
    let (block, count) = match request {
        Request::Read { block, count } => (*block, *count),
        Request::Write { block, count, .. } => (*block, *count),
        Request::Flush => return Ok(()),
    };
    if count == 0 || count > MOST_BLOCKS {
        return Err(IssueFault::Count);
    }
    if count > blocks || block > blocks - count {
        return Err(IssueFault::Range);
    }
    Ok(())
}
