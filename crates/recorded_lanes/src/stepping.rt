// Steps of the ends of disks.

ghost use Rattle.std.specs.Prelude.{◌≡◌, ◌<◌, ◌≤◌, [], length, slice_get, Some, IfOk, IsOk, OnErr, OnOk};
ghost use Rattle.disk_law.specs.ListState.{as_image, ImageState};
ghost use Rattle.domain_script.specs.LaneKinds.{disk_lane};
ghost use Rattle.ldc_queue.specs.declared.end.End.TheVariants.{A, B};
ghost use Rattle.ldom_report.specs.LaneEvents.{end_of};
ghost use Rattle.ldom_report.specs.Report.{accepted_count};
ghost use Rattle.recorded_lanes.specs.OneLane.{EndSteps, LaneSteps, kept_bytes};
ghost use Rattle.recorded_lanes.specs.Steps.{MakesQuietStep, MakesStep, moment};
ghost use Rattle.world_parts.specs.lane_models.LaneState.{LaneState};
ghost use Rattle.world_parts.specs.world_laws.Issued.{issued_on};
ghost use Rattle.world_parts.specs.world_laws.World.{WorldStep};
ghost use Rattle.world_parts.specs.Declared.{LiesWithin};

use crate::disks::Disks;
use crate::entries::{leave_client, leave_server};
use disk_lane::{ClientOut, DiskLane, ServerOut};
use domain_script::Side;
use ldom_report::{Bytes, Journal};
use std::alloc::Global;
use vio_bytes::NoMemory;
use vio_io::Store;

impl<D: Store> Disks<D> {
    /// One step of an end of the disk with this number, once there is room for its entry. More memory is wanted only for
    /// the bytes that a completion of a client's first request may carry.
    pub fn step(&mut self, disk: u32, side: Side, journal: &mut Journal) -> Result<(), NoMemory>
        requires disk { disk < length self.old.lanes }
        requires agrees { accepted_count journal.old.entries ≡ issued_on self.old.lanes }
        ensures made { OnOk result (MakesStep WorldStep (disk_lane disk) (end_of side)
            (moment self.old journal.old.entries) (moment self.new journal.new.entries)) }
        ensures same { OnErr result ((self.new ≡ self.old) × (journal.new.entries ≡ journal.old.entries)) }
        ensures many { length self.new.lanes ≡ length self.old.lanes }
        ensures agrees { accepted_count journal.new.entries ≡ issued_on self.new.lanes }
        ensures there { (lane : LaneState) → slice_get self.old.lanes disk ≡ Some lane
            → kept_bytes (end_of side) lane ≤ 16 → 0 < journal.old.room → IsOk result }
    {
        journal.reserve(1)?;
        self.step_end(disk, side, false, journal)?;
        Ok(())
    }

    /// The same in a settle, where a step that idles and one of a stopped server leave no entry; and whether it was
    /// calm.
    pub fn quiet_step(
        &mut self,
        disk: u32,
        side: Side,
        journal: &mut Journal,
    ) -> Result<bool, NoMemory>
        requires disk { disk < length self.old.lanes }
        requires agrees { accepted_count journal.old.entries ≡ issued_on self.old.lanes }
        ensures made { IfOk result (λ calm. MakesQuietStep WorldStep (disk_lane disk) (end_of side)
            (moment self.old journal.old.entries) calm (moment self.new journal.new.entries)) }
        ensures same { OnErr result ((self.new ≡ self.old) × (journal.new.entries ≡ journal.old.entries)) }
        ensures many { length self.new.lanes ≡ length self.old.lanes }
        ensures agrees { accepted_count journal.new.entries ≡ issued_on self.new.lanes }
        ensures there { (lane : LaneState) → slice_get self.old.lanes disk ≡ Some lane
            → kept_bytes (end_of side) lane ≤ 16 → 0 < journal.old.room → IsOk result }
    {
        journal.reserve(1)?;
        let calm = self.step_end(disk, side, true, journal)?;
        Ok(calm)
    }

    /// One step of an end, in a settle or not, into room for its entry. Tells whether it was calm.
    fn step_end(
        &mut self,
        disk: u32,
        side: Side,
        in_settle: bool,
        journal: &mut Journal,
    ) -> Result<bool, NoMemory>
        requires disk { disk < length self.old.lanes }
        requires ready { 0 < journal.old.room }
        ensures steps { IfOk result (λ calm. EndSteps in_settle disk (end_of side) self.old journal.old calm
            journal.new self.new) }
        ensures same { OnErr result ((self.new ≡ self.old) × (journal.new ≡ journal.old)) }
        ensures there { (lane : LaneState) → slice_get self.old.lanes disk ≡ Some lane
            → kept_bytes (end_of side) lane ≤ 16 → IsOk result }
    {
        match side {
            Side::Client => self.step_client(disk, in_settle, journal),
            Side::Server => Ok(self.step_server(disk, in_settle, journal)),
        }
    }

    fn step_client(
        &mut self,
        disk: u32,
        in_settle: bool,
        journal: &mut Journal,
    ) -> Result<bool, NoMemory>
        requires disk { disk < length self.old.lanes }
        requires ready { 0 < journal.old.room }
        ensures steps { IfOk result (λ calm. EndSteps in_settle disk A self.old journal.old calm journal.new
            self.new) }
        ensures same { OnErr result ((self.new ≡ self.old) × (journal.new ≡ journal.old)) }
        ensures there { (lane : LaneState) → slice_get self.old.lanes disk ≡ Some lane
            → kept_bytes A lane ≤ 16 → IsOk result }
    {
        let lane = &mut self.lanes[disk as usize];
        client_step(lane, disk, in_settle, &mut self.room, self.alloc, journal)
    }

    fn step_server(&mut self, disk: u32, in_settle: bool, journal: &mut Journal) -> bool
        requires disk { disk < length self.old.lanes }
        requires ready { 0 < journal.old.room }
        ensures { EndSteps in_settle disk B self.old journal.old result journal.new self.new }
    {
        let lane = &mut self.lanes[disk as usize];
        server_step(lane, disk, in_settle, &mut self.image, journal)
    }
}

/// One step of a lane's client, once there is room for what a completion of the first request carries. Tells whether it
/// was calm.
fn client_step(
    lane: &mut DiskLane,
    disk: u32,
    in_settle: bool,
    room: &mut Bytes,
    alloc: Global,
    journal: &mut Journal,
) -> Result<bool, NoMemory>
    requires empty { room.old.items ≡ [] }
    requires ready { 0 < journal.old.room }
    ensures steps { IfOk result (λ calm. (i : ImageState) → LaneSteps in_settle disk A lane.old i journal.old calm
        journal.new lane.new i) }
    ensures same { OnErr result ((lane.new ≡ lane.old) × (journal.new ≡ journal.old)) }
    ensures shape { lane.new.shape ≡ lane.old.shape }
    ensures empty { room.new.items ≡ [] }
    ensures there { kept_bytes A lane.old ≤ 16 → IsOk result }
{
    make_room(room, lane.front_len() as usize, alloc)?;
    let mut out = ClientOut::Idle;
    lane.step_client_into(&mut out);
    let calm = leave_client(disk, &out, lane, in_settle, room, alloc, journal);
    Ok(calm)
}

/// Makes room for so many bytes, if there isn't yet. That for up to 16 takes no memory.
fn make_room(room: &mut Bytes, least: usize, alloc: Global) -> Result<(), NoMemory>
    requires empty { room.old.items ≡ [] }
    ensures made { OnOk result (least ≤ room.new.room) }
    ensures empty { room.new.items ≡ [] }
    ensures there { least ≤ room.old.room → IsOk result }
    ensures few { least ≤ 16 → IsOk result }
{
    if room.room() < least {
        *room = Bytes::with_room(alloc, least)?;
    }
    Ok(())
}

/// One step of a lane's server over the image. Tells whether it was calm.
fn server_step<D: Store>(
    lane: &mut DiskLane,
    disk: u32,
    in_settle: bool,
    image: &mut D,
    journal: &mut Journal,
) -> bool
    requires region { LiesWithin (D.size image.old) lane.old }
    requires ready { 0 < journal.old.room }
    ensures steps { LaneSteps in_settle disk B lane.old
        (as_image D.Store image.old) journal.old result journal.new lane.new
        (as_image D.Store image.new) }
    ensures size { D.size image.new ≡ D.size image.old }
    ensures shape { lane.new.shape ≡ lane.old.shape }
{
    let mut out = ServerOut::Idle;
    let runs = lane.step_server_into(image, &mut out);
    leave_server(disk, runs, &out, in_settle, journal)
}
