// The headline of every script that its journal fits.

ghost use Rattle.std.specs.Prelude.{ℕ, ◌≤◌, List, length, IfSome};
ghost use Rattle.disk_law.specs.ListState.{ImageState};
ghost use Rattle.domain_script.specs.Declarations.{AreDisks};
ghost use Rattle.domain_script.specs.declared.event.DiskDecl.{DiskDecl};
ghost use Rattle.world_parts.specs.domain_laws.Domain.{DomainState};
ghost use Rattle.lane_kinds.specs.Lanes.{EachOf};
ghost use Rattle.world_parts.specs.lane_models.NetLaneState.{IsNetShape, NetShape};
ghost use Rattle.script_laws.specs.Headline.{Headline};
ghost use Rattle.world_parts.specs.Declared.{bytes_needed, world_of};
ghost use Rattle.world_parts.specs.Script.{FitsScript, ScriptParts};

/// For every script over at most eight disks and eight ports, whatever it resets, stops, restarts, loses and forges,
/// and wherever its run ended: each disk's lane is lawful. At the end and behind each front of the entries
/// it stands as its log says. Where nobody forged it until then, an end that is up heard in order what the other said.
/// Sessions that are open are one, whose counts and slots stand in their order. After each settle that ends settled
/// both its ends are still. Where its server runs and nobody forged it, it is finished: its client's session is open,
/// and all its accepted requests have completed. A forged one is finished, or had its tick. Each settle, also one that
/// want of memory cut off, has at most one tick of a lane. It has it where the lane isn't finished though its server
/// runs, and both ends are still; and where nobody forged it, where a packet was lost. A settle names a lane as left
/// over only where the most rounds were made, and never where nobody forged a lane before. Where it gave its whole
/// part, it names exactly those lanes that moved in its last round or aren't finished, though their server runs. Let
/// the image tell its bytes, and let nobody forge the disk and no call of the store fail for it, as where the image
/// counts no fault. Then each completed read shows the last earlier write, and so does each until somebody did. Each
/// block of the disk is that of its completed writes or of one that isn't completed. Where all are completed, the disk
/// holds exactly the accepted ones applied once in order. Outside of all disks the image stays. Each port is lawful
/// too. Where nobody forged it its frames arrive in order, and it rests behind each settle that ends settled; and all
/// arrive where the script ends so and none is said to be lost. What is said of a disk's ticks, of its ends behind a
/// settle and of its being left over holds of a port, which has no server that stops. It is finished where its guest is
/// in session and told all its groups, and no frame is held. Each frame that is switched goes to one set of ports and
/// misses another, whose out queues are full: together they are those that its destination names. A line that is for
/// one lane leaves all others, but for frames in out queues, and so does what was done of one that want of memory cut
/// off.
pub fn the_headline_holds()
    ensures { (disks : List DiskDecl) (nets : List NetShape) (image : ImageState) (parts : ScriptParts)
        (v : DomainState) → AreDisks disks → length disks ≤ 8 → EachOf IsNetShape nets → length nets ≤ 8
        → IfSome image.told (λ bytes. bytes_needed disks ≤ length bytes)
        → FitsScript 0 (world_of disks nets image) parts v → Headline disks nets image parts v }
{}
