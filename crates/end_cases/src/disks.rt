// The two ends of a disk with all that stands between them.

ghost use Rattle.std.specs.Prelude.{◌≡◌, ◌+◌, ◌*◌, ◌≤◌, length, IfSome};
ghost use Rattle.cookie_copy.specs.Faults.{PagesWithin};
ghost use Rattle.disk_requests.specs.Room.{HoldsRing};
ghost use Rattle.vdisk_msg.specs.Fills.{IsRequest};
ghost use Rattle.vdisk_msg.specs.Requested.{ring_pages};

use crate::answers::{client_text, server_text};
use crate::cases::Stage;
use crate::digits::{packet, runs_of, shown};
use crate::requests::request_of;
use dom_memory::Memory;
use flat_store::{MemStore, Region};
use ldc_queue::{Channel, End};
use map_table::{MapTable, Rights};
use std::alloc::Global;
use vdisk_client::{Client, ClientOut, IssueFault};
use vdisk_msg::Request;
use vdisk_server::{Server, ServerOut};
use vio_io::Store;

/// The client is at the end A of the channel, the server at B.
#[derive(Drop)]
pub struct Disk {
    channel: Channel,
    table: MapTable,
    memory: Memory,
    store: MemStore,
    client: Client,
    server: Server,
    asked: u64,
    ghost ring: { HoldsRing client.slots memory },
    ghost pages: { PagesWithin table (length memory) },
    ghost region: { 512 * (server.first + server.blocks) ≤ length store.bytes },
    ghost ids: { client.next_id ≤ asked },
}

/// So many steps leave a client at rest.
const STEPS: u32 = 8;

/// So many rounds of both ends end any request.
const ROUNDS: u32 = 1000;

impl Stage for Disk {
    // `disk BLOCKS SLOTS`, whose store fails the calls that follow.
    fn begin(alloc: Global, words: &[&str]) -> Option<Disk> {
        let ["disk", blocks, slots, rest @ ..] = words else {
            return None;
        };
        let (blocks, slots) = (blocks.parse::<u64>().ok()?, slots.parse::<u32>().ok()?);
        match rest {
            [] => Disk::new(alloc, blocks, slots, &[]),
            ["fails", call] => Disk::new(alloc, blocks, slots, &[call.parse::<u64>().ok()?]),
            _ => None,
        }
    }

    fn step(&mut self, alloc: Global, words: &[&str], _wanted: &str) -> Option<String> {
        match words {
            [call] => self.alone(alloc, call),
            ["client", call] => self.client_asked(alloc, call),
            [end, "hears", bytes] => self.hears(alloc, end, bytes),
            ["issue", request @ ..] => shown(alloc, &self.issue(&request_of(request)?)?),
            ["memory", at, count, byte] => self.put(alloc, at, count, byte),
            _ => None,
        }
    }
}

impl Disk {
    // A disk over a store of zeros that fails these calls.
    fn new(alloc: Global, blocks: u64, slots: u32, failing: &[u64]) -> Option<Disk> {
        if blocks == 0 || blocks > 65536 || slots < 2 || slots > 256 {
            return None;
        }
        let client = client_of(alloc, blocks, slots)?;
        let server = server_of(alloc, blocks, slots)?;
        let store = store_of(alloc, blocks, failing)?;
        Disk::between(alloc, slots, client, server, store)
    }

    // With a channel, a memory, and the table that grants it.
    fn between(
        alloc: Global,
        slots: u32,
        client: Client,
        server: Server,
        store: MemStore,
    ) -> Option<Disk>
        requires some { 2 ≤ slots }
        requires most { slots ≤ 256 }
        requires slots { client.slots ≡ slots }
        requires ids { client.next_id ≡ 0 }
        requires region { 512 * (server.first + server.blocks) ≤ length store.bytes }
    {
        let pages = pages_of(slots);
        let memory = memory_of(alloc, pages)?;
        let table = table_of(alloc, pages)?;
        match Channel::new(alloc, 16) {
            Ok(channel) => Some(Disk {
                channel,
                table,
                memory,
                store,
                client,
                server,
                asked: 0,
            }),
            Err(_) => None,
        }
    }

    // A step of an end, or what the store holds.
    fn alone(&mut self, alloc: Global, call: &str) -> Option<String> {
        match call {
            "client" => client_text(alloc, &self.step_client()),
            "server" => server_text(alloc, &self.step_server()),
            "store" => runs_of(alloc, self.store.bytes()),
            _ => None,
        }
    }

    fn step_client(&mut self) -> ClientOut {
        self.client.step(&mut self.channel, &mut self.memory)
    }

    fn step_server(&mut self) -> ServerOut {
        self.server.step(
            &mut self.channel,
            &self.table,
            &mut self.memory,
            &mut self.store,
        )
    }

    fn client_asked(&mut self, alloc: Global, call: &str) -> Option<String> {
        match call {
            "rests" => client_text(alloc, &self.rests()),
            "completes" => client_text(alloc, &self.completes()),
            "ticks" => shown(alloc, &self.ticks()),
            "resets" => shown(alloc, &self.resets()),
            "bytes" => runs_of(alloc, self.client.bytes()),
            "pending" => shown(alloc, &self.client.pending()),
            "mark" => shown(alloc, &self.client.mark()),
            "front" => shown(alloc, &self.client.front_len()),
            "finished" => shown(alloc, &self.client.finished()),
            _ => None,
        }
    }

    // The last of the steps after which the client can only wait.
    fn rests(&mut self) -> ClientOut {
        let mut out = ClientOut::Idle;
        for _ in 0..STEPS {
            out = self.step_client();
        }
        out
    }

    // The next completion, where rounds of both ends come to one.
    fn completes(&mut self) -> ClientOut {
        for _ in 0..ROUNDS {
            let out = self.step_client();
            if matches!(out, ClientOut::Done { .. }) {
                return out;
            }
            let _server = self.step_server();
        }
        ClientOut::Idle
    }

    fn ticks(&mut self) -> bool {
        self.client.tick(&mut self.channel)
    }

    fn resets(&mut self) -> bool {
        self.client.reset(&mut self.channel);
        self.client.finished()
    }

    // The step of an end that hears a packet, `it`, which the other end never put.
    fn hears(&mut self, alloc: Global, end: &str, bytes: &str) -> Option<String> {
        let packet = packet(bytes)?;
        let text = match end {
            "client" => {
                self.channel.forge(End::A, &packet).ok()?;
                client_text(alloc, &self.step_client())?
            }
            "server" => {
                self.channel.forge(End::B, &packet).ok()?;
                server_text(alloc, &self.step_server())?
            }
            _ => return None,
        };
        text.as_str().replace(alloc, bytes, "it").ok()
    }

    fn issue(&mut self, request: &Request) -> Option<Result<u64, IssueFault>>
        requires { IsRequest request.now }
    {
        self.asked = self.asked.checked_add(1)?;
        Some(self.client.issue(request))
    }

    fn put(&mut self, alloc: Global, at: &str, count: &str, byte: &str) -> Option<String> {
        let (at, count) = (at.parse::<u64>().ok()?, count.parse::<usize>().ok()?);
        shown(alloc, &self.write(at, count, packet(byte)?)?)
    }

    // Writes so many times a byte into the client's memory, and tells how many.
    fn write(&mut self, at: u64, count: usize, byte: [u8; 1]) -> Option<usize> {
        let size = 8192 * u64::from(self.memory.pages());
        let [byte] = byte;
        let bytes = [byte; 512];
        let part = bytes.get(..count)?;
        if at > size - 512 {
            return None;
        }
        self.memory.write(at, part);
        Some(count)
    }
}

// The pages of a ring, and four for each slot.
fn pages_of(slots: u32) -> u32
    requires { slots ≤ 256 }
    ensures { result ≡ ring_pages slots + 4 * slots }
{
    (128 * slots).div_ceil(8192) + 4 * slots
}

/// The memory of so many pages.
pub fn memory_of(alloc: Global, pages: u32) -> Option<Memory>
    requires some { 1 ≤ pages }
    requires most { pages ≤ 1028 }
    ensures { IfSome result (λ memory. length memory ≡ 8192 * pages) }
{
    Memory::new(alloc, pages).ok()
}

/// The table that grants so many pages, each at its own index.
pub fn table_of(alloc: Global, pages: u32) -> Option<MapTable>
    requires some { 1 ≤ pages }
    requires most { pages ≤ 1028 }
    ensures { IfSome result (λ table. PagesWithin table (8192 * pages)) }
{
    let mut table = MapTable::new(alloc, pages).ok()?;
    let rights = Rights {
        read: true,
        write: true,
    };
    for page in 0..pages {
        let _index = table.grant(page, rights);
    }
    Some(table)
}

fn store_of(alloc: Global, blocks: u64, failing: &[u64]) -> Option<MemStore>
    requires { blocks ≤ 65536 }
    ensures { IfSome result (λ store. length store.bytes ≡ 512 * blocks) }
{
    let zeros = vec![in alloc; 0; 512 * blocks as usize].ok()?;
    MemStore::new(alloc, &zeros, failing).ok()
}

fn client_of(alloc: Global, blocks: u64, slots: u32) -> Option<Client>
    requires blocks { blocks ≤ 65536 }
    requires some { 2 ≤ slots }
    requires most { slots ≤ 256 }
    ensures slots { IfSome result (λ client. client.slots ≡ slots) }
    ensures ids { IfSome result (λ client. client.next_id ≡ 0) }
{
    Client::new(alloc, blocks, slots).ok()
}

fn server_of(alloc: Global, blocks: u64, slots: u32) -> Option<Server>
    requires some_blocks { 1 ≤ blocks }
    requires most_blocks { blocks ≤ 65536 }
    requires some { 2 ≤ slots }
    requires most { slots ≤ 256 }
    ensures { IfSome result (λ server. server.first + server.blocks ≡ blocks) }
{
    let region = Region { first: 0, blocks };
    Server::new(alloc, region, slots).ok()
}
