// The two ends of a disk with all that stands between them.

ghost use Rattle.std.specs.Prelude.{◌≡◌, ◌<◌, ◌+◌, ◌*◌, ◌^◌, ◌-◌, ◌≤◌, ℕ, IfOk, length};
ghost use Rattle.cookie_copy.specs.Faults.{PagesWithin};
ghost use Rattle.disk_requests.specs.Room.{HoldsRing};
ghost use Rattle.vdisk_msg.specs.Fills.{IsRequest};

use dom_memory::Memory;
use flat_store::{MemStore, Region};
use ldc_queue::Channel;
use map_table::MapTable;
use memory_grant::own_table;
use std::alloc::Global;
use std::marker::Model;
use vdisk_client::{Client, ClientOut};
use vdisk_msg::Request;
use vdisk_server::{Server, ServerOut};
use vio_bytes::NoMemory;

/// The disk's blocks.
pub const BLOCKS: u64 = 4096;

/// The slots of its ring.
const SLOTS: u32 = 64;

/// The pages of the ring, and four for each slot.
const PAGES: u32 = 257;

/// More rounds than any work between two settles takes.
const ROUNDS: u32 = 100_000;

/// A lane, which is as the next id of its client.
#[derive(Drop)]
pub struct Lane {
    channel: Channel,
    table: MapTable,
    memory: Memory,
    store: MemStore,
    client: Client,
    server: Server,
}

impl Model for Lane {
    ghost Value = { ℕ };

    ghost view = { λ l. l.client.next_id };

    ghost invariant = { λ l. record {
      ring : HoldsRing l.client.slots l.memory;
      pages : PagesWithin l.table (length l.memory);
      region : 512 * (l.server.first + l.server.blocks) ≤ length l.store.bytes;
    } };
}

/// What a round came to.
#[derive(Drop)]
pub struct Round {
    /// Neither end did anything.
    pub quiet: bool,
    /// A request succeeded.
    pub done: bool,
}

impl Lane {
    /// A lane over a store of zeros.
    pub fn new(alloc: Global) -> Result<Lane, NoMemory>
        ensures { IfOk result (λ lane. lane ≡ 0) }
    {
        Lane::over(alloc, MemStore::zeros(alloc, 512 * BLOCKS as usize)?)
    }

    /// A lane over this store, which is as long as its disk.
    pub fn over(alloc: Global, store: MemStore) -> Result<Lane, NoMemory>
        requires { 2097152 ≤ length store.bytes }
        ensures { IfOk result (λ lane. lane ≡ 0) }
    {
        let region = Region {
            first: 0,
            blocks: BLOCKS,
        };
        Ok(Lane {
            channel: Channel::new(alloc, 16)?,
            table: own_table(alloc, PAGES)?,
            memory: Memory::new(alloc, PAGES)?,
            store,
            client: Client::new(alloc, BLOCKS, SLOTS)?,
            server: Server::new(alloc, region, SLOTS)?,
        })
    }

    /// Asks for a request, which may be refused.
    pub fn ask(&mut self, request: &Request)
        requires fill { IsRequest request.now }
        requires few { self.old < 2 ^ 64 - 1 }
        ensures { self.new ≤ self.old + 1 }
    {
        let _id = self.client.issue(request);
    }

    /// One step of the client, whose answer is written into the caller's.
    fn step_client_into(&mut self, out: &mut ClientOut)
        ensures { self.new ≡ self.old }
    {
        self.client
            .step_into(&mut self.channel, &mut self.memory, out);
    }

    /// One step of the server, likewise.
    fn step_server_into(&mut self, out: &mut ServerOut)
        ensures { self.new ≡ self.old }
    {
        self.server.step_into(
            &mut self.channel,
            &self.table,
            &mut self.memory,
            &mut self.store,
            out,
        );
    }

    /// One step of each end.
    pub fn round(&mut self) -> Round
        ensures { self.new ≡ self.old }
    {
        let mut client = ClientOut::Idle;
        let mut server = ServerOut::Idle;
        self.step_client_into(&mut client);
        self.step_server_into(&mut server);
        Round {
            quiet: matches!(client, ClientOut::Idle) && matches!(server, ServerOut::Idle),
            done: succeeded(&client),
        }
    }

    /// Rounds until both ends rest, and how many requests succeeded in them.
    pub fn settle(&mut self) -> u64
        ensures same { self.new ≡ self.old }
        ensures few { result ≤ 100000 }
    {
        let mut done = 0;
        for _ in 0..ROUNDS {
            let round = self.round();
            if round.quiet {
                break;
            }
            if round.done {
                done += 1;
            }
        }
        done
    }
}

fn succeeded(out: &ClientOut) -> bool {
    match out {
        ClientOut::Done { status: 0, .. } => true,
        _ => false,
    }
}
