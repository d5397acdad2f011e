// What follows for a script by its lines, over disks and ports.

ghost use Rattle.std.specs.Prelude.{◌≡◌, ◌<◌, ℕ, length, List, Some, ◌∷◌, ◌++◌, slice_get};
ghost use Rattle.runs.specs.Run.{Run};
ghost use Rattle.disk_law.specs.ListState.{ImageState};
ghost use Rattle.lane_models.specs.DiskEvent.{DiskEvent};
ghost use Rattle.lane_models.specs.LaneState.{LaneState, Shape};
ghost use Rattle.lane_kinds.specs.Lanes.{EachOf};
ghost use Rattle.lane_models.specs.NetLaneState.{NetShape};
ghost use Rattle.lane_models.specs.PortState.{PortState};
ghost use Rattle.switch_laws.specs.Events.{SwitchEvent};
ghost use Rattle.switch_laws.specs.Reached as port;
ghost use Rattle.world_laws.specs.Running.{IsRunning};
ghost use Rattle.world_laws.specs.Settle.{OfLane, OfPort, SettleEntry, Unsettled, UnsettledPort};
ghost use Rattle.world_laws.specs.Stays.{StaysAround};
ghost use Rattle.world_laws.specs.Sums as disk;
ghost use Rattle.world_laws.specs.World.{AreShapes, IsWorld, WorldStep};
ghost use Rattle.domain_laws.specs.Along.{OnlyDisk};
ghost use Rattle.domain_laws.specs.Domain.{DomainState, DomainStep, fresh_domain, lanes_in, PortsStep};
ghost use Rattle.domain_laws.specs.Forged.{AllForgeNothing, AllForgeOthers, ForgesOthers};
ghost use Rattle.domain_laws.specs.Isolation.{IsFor, OnlyPortPart};
ghost use Rattle.domain_laws.specs.Lines.{DiskLane, entries_of_lines, Line, LineBegins, LineMoves, LineStep, PortLane};
ghost use Rattle.domain_laws.specs.Running.{AllLeaveRunning};
ghost use Rattle.domain_laws.specs.Settling.{AreUnforged};

/// A script leads a world line by line: what it leads to is where the world runs by the parts of all lines, one after
/// the other. So the disks run by these, and so do the ports.
pub fn a_script_runs_a_world_by_its_parts()
    ensures world { (w : DomainState) (lines : List (Line × List SettleEntry)) (v : DomainState)
        → Run LineStep w lines v → Run DomainStep w (entries_of_lines lines) v }
    ensures disks { (w : DomainState) (lines : List (Line × List SettleEntry)) (v : DomainState)
        → Run LineStep w lines v → Run WorldStep w.first (entries_of_lines lines) v.first }
    ensures ports { (w : DomainState) (lines : List (Line × List SettleEntry)) (v : DomainState)
        → Run LineStep w lines v → Run PortsStep w.second (entries_of_lines lines) v.second }
{}

/// Where no line of a script injects a packet or pokes into a memory, nobody forged any disk or port of the world that
/// they lead to. So it is also where want of memory cut a line. And where no line stops a server, each runs.
pub fn nobody_forges_by_lines()
    ensures unforged { (shapes : List Shape) (image : ImageState) (nets : List NetShape)
        (lines : List (Line × List SettleEntry)) (w : DomainState)
        → AllForgeNothing lines → Run LineStep (fresh_domain shapes image nets) lines w → AreUnforged (lanes_in w) }
    ensures begun { (shapes : List Shape) (image : ImageState) (nets : List NetShape)
        (lines : List (Line × List SettleEntry)) (w : DomainState) (line : Line) (part : List SettleEntry)
        (v : DomainState) → AllForgeNothing lines → Run LineStep (fresh_domain shapes image nets) lines w
        → LineBegins w line part v → AreUnforged (lanes_in v) }
    ensures running { (shapes : List Shape) (image : ImageState) (nets : List NetShape)
        (lines : List (Line × List SettleEntry)) (w : DomainState)
        → AllLeaveRunning lines → Run LineStep (fresh_domain shapes image nets) lines w
        → EachOf IsRunning w.first.lanes }
    ensures running_begun { (shapes : List Shape) (image : ImageState) (nets : List NetShape)
        (lines : List (Line × List SettleEntry)) (w : DomainState) (line : Line) (part : List SettleEntry)
        (v : DomainState) → AllLeaveRunning lines → Run LineStep (fresh_domain shapes image nets) lines w
        → LineBegins w line part v → EachOf IsRunning v.first.lanes }
{}

/// A line that injects a packet or pokes into a memory forges no other lane than its own. And so a disk or a port is
/// unforged where no line of a script does that on it, whatever lines do to others.
pub fn a_line_forges_no_other_lane()
    ensures of_disk { (w : DomainState) (line : Line) (part : List SettleEntry) (v : DomainState) (k : ℕ)
        (s t : LaneState) → ForgesOthers (DiskLane k) line → LineMoves w line part v → slice_get w.first.lanes k ≡ Some s
        → slice_get v.first.lanes k ≡ Some t → disk.IsUnforged s → disk.IsUnforged t }
    ensures of_port { (w : DomainState) (line : Line) (part : List SettleEntry) (v : DomainState) (k : ℕ)
        (s t : PortState) → ForgesOthers (PortLane k) line → LineMoves w line part v → slice_get w.second k ≡ Some s
        → slice_get v.second k ≡ Some t → port.IsUnforged s → port.IsUnforged t }
    ensures disk_by_script { (shapes : List Shape) (image : ImageState) (nets : List NetShape)
        (lines : List (Line × List SettleEntry)) (w : DomainState) (k : ℕ) (t : LaneState)
        → AllForgeOthers (DiskLane k) lines → Run LineStep (fresh_domain shapes image nets) lines w
        → slice_get w.first.lanes k ≡ Some t → disk.IsUnforged t }
    ensures port_by_script { (shapes : List Shape) (image : ImageState) (nets : List NetShape)
        (lines : List (Line × List SettleEntry)) (w : DomainState) (k : ℕ) (t : PortState)
        → AllForgeOthers (PortLane k) lines → Run LineStep (fresh_domain shapes image nets) lines w
        → slice_get w.second k ≡ Some t → port.IsUnforged t }
{}

/// Each disk and each port that an entry of a world's journal names is one of the world's, whatever was forged. The
/// lanes that a settle of a script leaves over are the world's too, also where want of memory cut its line.
pub fn entries_name_lanes_of_the_world()
    ensures disks { (shapes : List Shape) (image : ImageState) (nets : List NetShape) (entries : List SettleEntry)
        (w : DomainState) (before : List SettleEntry) (k : ℕ) (event : DiskEvent) (behind : List SettleEntry)
        → AreShapes 0 shapes → Run DomainStep (fresh_domain shapes image nets) entries w
        → before ++ OfLane k event ∷ behind ≡ entries → k < length shapes }
    ensures ports { (shapes : List Shape) (image : ImageState) (nets : List NetShape) (entries : List SettleEntry)
        (w : DomainState) (before : List SettleEntry) (k : ℕ) (event : SwitchEvent) (behind : List SettleEntry)
        → Run DomainStep (fresh_domain shapes image nets) entries w
        → before ++ OfPort k event ∷ behind ≡ entries → k < length nets }
    ensures unsettled { (shapes : List Shape) (image : ImageState) (nets : List NetShape)
        (lines : List (Line × List SettleEntry)) (w : DomainState) (before : List SettleEntry) (k : ℕ)
        (behind : List SettleEntry) → Run LineStep (fresh_domain shapes image nets) lines w
        → before ++ Unsettled k ∷ behind ≡ entries_of_lines lines → k < length shapes }
    ensures unsettled_ports { (shapes : List Shape) (image : ImageState) (nets : List NetShape)
        (lines : List (Line × List SettleEntry)) (w : DomainState) (before : List SettleEntry) (k : ℕ)
        (behind : List SettleEntry) → Run LineStep (fresh_domain shapes image nets) lines w
        → before ++ UnsettledPort k ∷ behind ≡ entries_of_lines lines → k < length nets }
    ensures unsettled_begun { (shapes : List Shape) (image : ImageState) (nets : List NetShape)
        (lines : List (Line × List SettleEntry)) (w : DomainState) (line : Line) (part : List SettleEntry)
        (v : DomainState) (before : List SettleEntry) (k : ℕ) (behind : List SettleEntry)
        → Run LineStep (fresh_domain shapes image nets) lines w → LineBegins w line part v
        → before ++ Unsettled k ∷ behind ≡ entries_of_lines lines ++ part → k < length shapes }
    ensures unsettled_ports_begun { (shapes : List Shape) (image : ImageState) (nets : List NetShape)
        (lines : List (Line × List SettleEntry)) (w : DomainState) (line : Line) (part : List SettleEntry)
        (v : DomainState) (before : List SettleEntry) (k : ℕ) (behind : List SettleEntry)
        → Run LineStep (fresh_domain shapes image nets) lines w → LineBegins w line part v
        → before ++ UnsettledPort k ∷ behind ≡ entries_of_lines lines ++ part → k < length nets }
{}

/// A line that is for one disk leaves every other disk and the switch as they were, and of a told image all bytes
/// outside of the disk's region. One that is for a port leaves all disks and the image. Every other port is as it was,
/// but that the frames which the line switched to it stand last in its out queue. Whatever is forged, and also where
/// want of memory cut the line.
pub fn a_line_of_a_lane_leaves_all_other_lanes()
    ensures of_disk { (w : DomainState) (line : Line) (part : List SettleEntry) (v : DomainState) (k : ℕ)
        → IsFor (DiskLane k) line → LineMoves w line part v → OnlyDisk k w v }
    ensures disk_begun { (w : DomainState) (line : Line) (part : List SettleEntry) (v : DomainState) (k : ℕ)
        → IsFor (DiskLane k) line → LineBegins w line part v → OnlyDisk k w v }
    ensures of_port { (w : DomainState) (line : Line) (part : List SettleEntry) (v : DomainState) (k : ℕ)
        → IsFor (PortLane k) line → LineMoves w line part v → OnlyPortPart k part w v }
    ensures port_begun { (w : DomainState) (line : Line) (part : List SettleEntry) (v : DomainState) (k : ℕ)
        → IsFor (PortLane k) line → LineBegins w line part v → OnlyPortPart k part w v }
    ensures image { (shapes : List Shape) (image : ImageState) (nets : List NetShape) (first : List ℕ)
        (lines : List (Line × List SettleEntry)) (w : DomainState) (line : Line) (part : List SettleEntry)
        (v : DomainState) (k : ℕ) (shape : Shape) (store : List ℕ) → IsWorld shapes image → image.told ≡ Some first
        → Run LineStep (fresh_domain shapes image nets) lines w → LineMoves w line part v → IsFor (DiskLane k) line
        → slice_get shapes k ≡ Some shape → w.first.image.told ≡ Some store
        → StaysAround shape store v.first.image.told }
    ensures image_begun { (shapes : List Shape) (image : ImageState) (nets : List NetShape) (first : List ℕ)
        (lines : List (Line × List SettleEntry)) (w : DomainState) (line : Line) (part : List SettleEntry)
        (v : DomainState) (k : ℕ) (shape : Shape) (store : List ℕ) → IsWorld shapes image → image.told ≡ Some first
        → Run LineStep (fresh_domain shapes image nets) lines w → LineBegins w line part v → IsFor (DiskLane k) line
        → slice_get shapes k ≡ Some shape → w.first.image.told ≡ Some store
        → StaysAround shape store v.first.image.told }
{}
