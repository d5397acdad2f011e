// What a line of a script leaves as it was.

ghost use Rattle.std.specs.Prelude.{◌≡◌, ◌≤◌, ℕ, List, length, Some, slice_get};
ghost use Rattle.runs.specs.Run.{Run};
ghost use Rattle.disk_law.specs.ListState.{ImageState};
ghost use Rattle.world_parts.specs.lane_models.LaneState.{Shape};
ghost use Rattle.world_parts.specs.domain_laws.Along.{OnlyDisk};
ghost use Rattle.world_parts.specs.domain_laws.Domain.{DomainState};
ghost use Rattle.world_parts.specs.domain_laws.Isolation.{IsFor, OnlyPortPart};
ghost use Rattle.world_parts.specs.domain_laws.Lines.{DiskLane, PortLane};
ghost use Rattle.domain_script.specs.Declarations.{AreDisks};
ghost use Rattle.domain_script.specs.declared.event.DiskDecl.{DiskDecl};
ghost use Rattle.domain_script.specs.declared.event.Event.{Event};
ghost use Rattle.ldom_entries.specs.declared.entry.Entry.{Entry};
ghost use Rattle.world_parts.specs.lane_models.NetLaneState.{NetShape};
ghost use Rattle.world_parts.specs.world_laws.Stays.{StaysAround};
ghost use Rattle.script_laws.specs.Told.{told_by};
ghost use Rattle.world_parts.specs.Declared.{bytes_needed, shapes_of, world_of};
ghost use Rattle.world_parts.specs.Lines.{EventStep, line_of};

/// A line that is for one disk, whatever it does there, leaves every other disk and the switch as they were. Of an image
/// that tells its bytes it leaves all around that disk's region. One that is for a port leaves all disks and the image.
/// Every other port is as it was, but that the frames which its part switched to it stand last in its out queue.
pub fn a_line_changes_its_own_lane_alone()
    ensures of_disk { (w : DomainState) (line : Event × List Entry) (v : DomainState) (k : ℕ)
        → EventStep w line v → IsFor (DiskLane k) (line_of line.0) → OnlyDisk k w v }
    ensures of_port { (w : DomainState) (line : Event × List Entry) (v : DomainState) (k : ℕ)
        → EventStep w line v → IsFor (PortLane k) (line_of line.0) → OnlyPortPart k (told_by line) w v }
    ensures image { (disks : List DiskDecl) (nets : List NetShape) (image : ImageState) (first : List ℕ)
        → AreDisks disks → image.told ≡ Some first → bytes_needed disks ≤ length first
        → (lines : List (Event × List Entry)) (w : DomainState) (line : Event × List Entry) (v : DomainState)
        (k : ℕ) (shape : Shape) (store : List ℕ) → Run EventStep (world_of disks nets image) lines w
        → EventStep w line v → IsFor (DiskLane k) (line_of line.0) → slice_get (shapes_of 0 disks) k ≡ Some shape
        → w.first.image.told ≡ Some store → StaysAround shape store v.first.image.told }
{}
