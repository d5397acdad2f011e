// What a line of a script says, done to a world.

ghost use Rattle.std.specs.Prelude.{◌≡◌, ◌<◌, length, take, IsOk, OnErr, OnOk};
ghost use Rattle.recorded_lanes.specs.world_parts.domain_laws.Lines.{Asked, Joins, Nothing, Sends};
ghost use Rattle.domain_script.specs.Fills.{IsPiece};
ghost use Rattle.recorded_lanes.specs.Steps.{Counted};
ghost use Rattle.ldom_world.specs.OneEntry.{MakesOneEntry};
ghost use Rattle.ldom_world.specs.TurnsMade.{SameNumbers};
ghost use Rattle.recorded_lanes.specs.kept_requests.Kept.{HasFewBytes};
ghost use Rattle.vdisk_msg.specs.Fills.{IsRequest};
ghost use Rattle.recorded_lanes.specs.world_parts.Lines.{IsForLanes, line_of};
ghost use Rattle.recorded_lanes.specs.world_parts.Parts.{Fits, FitsSoFar};

use crate::kinds::disks;
use crate::world::World;
use domain_script::{Event, Piece, Request};
use recorded_lanes::{Journal, LaneCall, fill_bytes};
use vio_bytes::NoMemory;
use vio_io::Store;

impl<D: Store> World<D> {
    /// Does what a line of the script says, and adds its part to the journal. A blank line and a declaration say nothing
    /// and want no memory. Nor does another line than `step`, `round` and `settle`, where the journal has room for an
    /// entry and the line has at most 16 bytes to keep beside it. After want of memory the journal holds every step that
    /// was made and no other.
    #[tactic(auto, using(crate::proofs::NumbersStay::line_many, crate::proofs::Calling::calls_on))]
    pub fn apply(&mut self, event: &Event, journal: &mut Journal) -> Result<(), NoMemory>
        requires event { IsForLanes self.old event.now }
        requires agrees { Counted journal.old.entries self.old }
        ensures fits { OnOk result (Fits self.old (line_of event.now) journal.old.entries journal.new.entries self.new) }
        ensures so_far { OnErr result (FitsSoFar self.old (line_of event.now) journal.old.entries
            journal.new.entries self.new) }
        ensures agrees { Counted journal.new.entries self.new }
        ensures many { SameNumbers self.old self.new }
        ensures nothing { line_of event.now ≡ Nothing → IsOk result × (journal.new ≡ journal.old) }
        ensures there { MakesOneEntry event.now → 0 < journal.old.room → IsOk result }
    {
        match event {
            Event::Blank => Ok(()),
            Event::Disk(_) => Ok(()),
            Event::Net(_) => Ok(()),
            Event::Send { port, frame } => self.send(*port, piece_bytes(frame), journal),
            Event::Join { port, address } => self.join(*port, *address, journal),
            Event::Issue { disk, request } => self.issue(*disk, request, journal),
            Event::Settle => self.settle(journal),
            Event::Step { end, count } => self.steps(end.lane, end.side, *count, journal),
            Event::Round { count } => self.rounds(*count, journal),
            Event::Reset { end } => self.call_on(end.lane, LaneCall::Reset(end.side), journal),
            Event::Restart { end } => self.call_on(end.lane, LaneCall::Restart, journal),
            Event::Stop { disk } => disks::answer(self, *disk, LaneCall::Stop, journal),
            Event::Start { disk } => disks::answer(self, *disk, LaneCall::Start, journal),
            Event::Lose { end } => self.call_on(end.lane, LaneCall::Lose(end.side), journal),
            Event::Tick { lane } => self.call_on(*lane, LaneCall::Tick, journal),
            Event::Inject { end, packet } => {
                self.call_on(end.lane, LaneCall::Inject(end.side, packet), journal)
            }
            Event::Poke { end, at, bytes } => {
                self.poke_on(*end, *at, fill_bytes(bytes), journal)
            }
        }
    }

    /// A guest asks the disk with this number: the request is accepted with its id, or refused, or finds no room.
    fn issue(&mut self, disk: u32, request: &Request, journal: &mut Journal) -> Result<(), NoMemory>
        requires disk { disk < length self.old.first.lanes }
        requires request { IsRequest request.now }
        requires agrees { Counted journal.old.entries self.old }
        ensures fits { OnOk result (Fits self.old (Asked disk request.now) journal.old.entries journal.new.entries
            self.new) }
        ensures so_far { OnErr result (FitsSoFar self.old (Asked disk request.now) journal.old.entries
            journal.new.entries self.new) }
        ensures agrees { Counted journal.new.entries self.new }
        ensures there { HasFewBytes request.now → 0 < journal.old.room → IsOk result }
    {
        self.disks.issue(disk, request, journal)
    }

    /// The guest of the port with this number is given a frame.
    fn send(&mut self, port: u32, frame: &[u8], journal: &mut Journal) -> Result<(), NoMemory>
        requires port { port < length self.old.second }
        requires agrees { Counted journal.old.entries self.old }
        ensures fits { OnOk result (Fits self.old (Sends port frame.now)
            journal.old.entries journal.new.entries self.new) }
        ensures so_far { OnErr result (FitsSoFar self.old (Sends port frame.now)
            journal.old.entries journal.new.entries self.new) }
        ensures agrees { Counted journal.new.entries self.new }
        ensures there { 0 < journal.old.room → IsOk result }
    {
        self.ports.send(port, frame, journal)
    }

    /// The guest of the port with this number joins a group.
    fn join(&mut self, port: u32, address: [u8; 6], journal: &mut Journal) -> Result<(), NoMemory>
        requires port { port < length self.old.second }
        requires agrees { Counted journal.old.entries self.old }
        ensures fits { OnOk result (Fits self.old (Joins port address)
            journal.old.entries journal.new.entries self.new) }
        ensures so_far { OnErr result (FitsSoFar self.old (Joins port address)
            journal.old.entries journal.new.entries self.new) }
        ensures agrees { Counted journal.new.entries self.new }
        ensures there { 0 < journal.old.room → IsOk result }
    {
        self.ports.join(port, address, journal)
    }
}

/// The bytes of a frame that a line hands to a guest.
fn piece_bytes(frame: &Piece) -> &[u8]
    requires { IsPiece frame.now }
    ensures { result.now ≡ take frame.now.len frame.now.bytes }
{
    &frame.bytes[..usize::from(frame.len)]
}
