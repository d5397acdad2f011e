// What holds along every run of a world of disks and ports.

ghost use Rattle.std.specs.Prelude.{◌≡◌, ◌≢◌, ◌↔◌, ℕ, length, List, map, slice_get, Some};
ghost use Rattle.runs.specs.Run.{Run};
ghost use Rattle.disk_law.specs.ListState.{ImageState};
ghost use Rattle.lane_models.specs.DiskEvent.{DiskEvent};
ghost use Rattle.lane_models.specs.LaneState.{Shape};
ghost use Rattle.lane_kinds.proofs.Both.{two_of};
ghost use Rattle.lane_kinds.specs.Lanes.{AllMove, EachOf};
ghost use Rattle.lane_models.specs.NetLaneState.{IsNetShape, NetShape};
ghost use Rattle.lane_models.specs.PortState.{fresh_port, PortState, PortStep};
ghost use Rattle.switch_laws.specs.Events.{at_port, SwitchEvent, SwitchStep};
ghost use Rattle.switch_laws.specs.Reached.{IsReached, IsUnforged};
ghost use Rattle.world_laws.specs.Settle.{OfLane, OfPort, SettleEntry};
ghost use Rattle.world_laws.specs.Stays.{StaysAround};
ghost use Rattle.world_laws.specs.World.{fresh_world, IsWorld, WorldState, WorldStep};
ghost use Rattle.domain_laws.specs.Along.{IsOfDisk, IsOfPort, OnlyDisk, OnlyPort, port_happened, port_said};
ghost use Rattle.domain_laws.specs.Domain.{DomainState, DomainStep, fresh_domain, PortsStep};
ghost use Rattle.domain_laws.specs.Forged.{NobodyForgesPort};

/// A run of a world of disks and ports is a run of the disks' world and one of the switch, each over the same entries.
/// Two such runs are one of both. So each law of a world of disks that is stated over runs holds as it stands.
pub fn each_kind_runs_by_the_one_journal()
    ensures disks { (w : DomainState) (entries : List SettleEntry) (v : DomainState) → Run DomainStep w entries v
        → Run WorldStep w.first entries v.first }
    ensures ports { (w : DomainState) (entries : List SettleEntry) (v : DomainState) → Run DomainStep w entries v
        → Run PortsStep w.second entries v.second }
    ensures both { (first : WorldState) (second : List PortState) (entries : List SettleEntry) (w : WorldState)
        (v : List PortState) → Run WorldStep first entries w → Run PortsStep second entries v
        → Run DomainStep (two_of WorldStep PortsStep first second) entries (two_of WorldStep PortsStep w v) }
{}

/// Each port of a world is run by what the journal says happened to it: its own events, and the frames that those of
/// other ports gave it. From a fresh one that is a run of the port by itself, so each law of a port that is stated over
/// runs holds of it. And each port is reached so.
pub fn each_port_runs_by_its_events()
    ensures moves { (lanes : List PortState) (entries : List SettleEntry) (behind : List PortState)
        → Run PortsStep lanes entries behind → AllMove SwitchStep port_said 0 lanes entries behind }
    ensures each { (nets : List NetShape) (entries : List SettleEntry) (behind : List PortState) (k : ℕ)
        (shape : NetShape) (s : PortState) → Run PortsStep (map fresh_port nets) entries behind
        → slice_get nets k ≡ Some shape → slice_get behind k ≡ Some s
        → Run PortStep (fresh_port shape) (map at_port (port_happened k entries)) s }
    ensures many { (nets : List NetShape) (entries : List SettleEntry) (behind : List PortState)
        → Run PortsStep (map fresh_port nets) entries behind → length behind ≡ length nets }
    ensures reached { (nets : List NetShape) (entries : List SettleEntry) (behind : List PortState)
        → EachOf IsNetShape nets → Run PortsStep (map fresh_port nets) entries behind → EachOf IsReached behind }
    ensures stays { (lanes : List PortState) (entries : List SettleEntry) (behind : List PortState)
        → EachOf IsReached lanes → Run PortsStep lanes entries behind → EachOf IsReached behind }
{}

/// An entry of one disk leaves every other disk and all ports as they were, and of a told image all bytes outside of
/// the disk's region. So it is forged or not, whether the store fails or not. And so do all entries of a line or a step
/// that are of one disk.
pub fn an_entry_of_a_disk_leaves_all_other_lanes()
    ensures entry { (k : ℕ) (event : DiskEvent) (w v : DomainState) → DomainStep w (OfLane k event) v → OnlyDisk k w v }
    ensures part { (k : ℕ) (part : List SettleEntry) (w v : DomainState) → EachOf (IsOfDisk k) part
        → Run DomainStep w part v → OnlyDisk k w v }
    ensures image { (shapes : List Shape) (image : ImageState) (nets : List NetShape) (first store : List ℕ)
        (entries : List SettleEntry) (w : DomainState) (k : ℕ) (event : DiskEvent) (v : DomainState) (shape : Shape)
        → IsWorld shapes image → image.told ≡ Some first → Run DomainStep (fresh_domain shapes image nets) entries w
        → DomainStep w (OfLane k event) v → slice_get shapes k ≡ Some shape → w.first.image.told ≡ Some store
        → StaysAround shape store v.first.image.told }
{}

/// An entry of one port leaves all disks and the image as they were. Every other port is as it was, but that a frame
/// which is switched to it stands last in its out queue then. So it is forged or not. And all entries of a line or a
/// step that are of one port leave the disks and the image.
pub fn an_entry_of_a_port_leaves_all_other_lanes()
    ensures entry { (k : ℕ) (event : SwitchEvent) (w v : DomainState) → DomainStep w (OfPort k event) v → OnlyPort k event w v }
    ensures part { (k : ℕ) (part : List SettleEntry) (w v : DomainState) → EachOf (IsOfPort k) part
        → Run DomainStep w part v → v.first ≡ w.first }
{}

/// A port's state says whether somebody forged it: nobody did exactly where none of its events forges, by what the
/// journal says happened to it. What happened to other lanes forges no port.
pub fn forging_of_ports_is_told()
    ensures { (nets : List NetShape) (entries : List SettleEntry) (behind : List PortState) (k : ℕ)
        (shape : NetShape) (s : PortState) → Run PortsStep (map fresh_port nets) entries behind
        → slice_get nets k ≡ Some shape → slice_get behind k ≡ Some s
        → (IsUnforged s) ↔ NobodyForgesPort (port_happened k entries) }
{}
