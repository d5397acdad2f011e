// What follows for the journal of every script.

ghost use Rattle.std.specs.Prelude.{◌≡◌, ℕ, ◌^◌, ◌<◌, ◌≤◌, List, length, Some};
ghost use Rattle.std.specs.List.{All};
ghost use Rattle.disk_law.specs.Issued.{CompletesOnceInOrder};
ghost use Rattle.disk_law.specs.ListState.{ImageState};
ghost use Rattle.domain_script.specs.Declarations.{AreDisks, Declared};
ghost use Rattle.domain_script.specs.declared.event.DiskDecl.{DiskDecl};
ghost use Rattle.world_parts.specs.domain_laws.Domain.{DomainState};
ghost use Rattle.lane_kinds.specs.Lanes.{EachOf};
ghost use Rattle.world_parts.specs.lane_models.NetLaneState.{IsNetShape, NetShape};
ghost use Rattle.ldom_report.specs.DiskEvents.{history};
ghost use Rattle.ldom_report.specs.HasWords.{HasWords};
ghost use Rattle.script_laws.specs.Admitting.{AdmitsAll};
ghost use Rattle.script_laws.specs.Failures.{FailuresCounted, SucceedOrFail};
ghost use Rattle.script_laws.specs.Outside.{IsOutsideDisks, KeepsOthers};
ghost use Rattle.script_laws.specs.Stored.{fault_count, flush_count, stored_count, write_count};
ghost use Rattle.world_parts.specs.Declared.{bytes_needed, nets_of, world_of};
ghost use Rattle.world_parts.specs.Script.{FitsScript, ScriptParts, all_lines, events_of, journal_of};

/// A journal cuts into the parts of its lines in one way. Over at most eight disks, take two lists of lines with the
/// same events, whose parts make the same journal and may come of the same world. They have the same parts. Of each the
/// last may have been cut off for want of memory.
pub fn a_journal_cuts_in_one_way()
    ensures { (disks : List DiskDecl) (nets : List NetShape) (image : ImageState) (parts others : ScriptParts)
        (v u : DomainState) → AreDisks disks → length disks ≤ 8 → EachOf IsNetShape nets → length nets ≤ 8
        → FitsScript 0 (world_of disks nets image) parts v → FitsScript 0 (world_of disks nets image) others u
        → events_of parts ≡ events_of others → journal_of parts ≡ journal_of others
        → all_lines parts ≡ all_lines others }
{}

/// In the parts of all lines of a script each request is refused for its defect, finds no room or is accepted with the
/// next id. It is so too where want of memory cut off the last line. It finds no room where as many are pending as its
/// disk's ring has slots.
pub fn requests_are_admitted()
    ensures { (disks : List DiskDecl) (nets : List NetShape) (image : ImageState) (entries : ℕ)
        (parts : ScriptParts) (v : DomainState) → AreDisks disks → FitsScript entries (world_of disks nets image) parts v → AdmitsAll disks (all_lines parts) }
{}

/// For each disk, by its number: the requests that a journal accepted complete in the order in which they were, each at
/// most once.
pub fn requests_complete_once_in_order()
    ensures { (disks : List DiskDecl) (nets : List NetShape) (image : ImageState) (entries : ℕ)
        (parts : ScriptParts) (v : DomainState) → AreDisks disks → FitsScript entries (world_of disks nets image) parts v
        → (x : ℕ) → CompletesOnceInOrder (history x (journal_of parts)) }
{}

/// An image that tells its bytes goes on to tell as many. Outside of the blocks that accepted requests write they stay as
/// they were; of a disk that somebody forged, outside of the disk's region. It is so too where an image failed, and where
/// memory was wanted within a line. Each request writes to its own disk.
pub fn bytes_outside_of_writes_stay()
    ensures { (disks : List DiskDecl) (nets : List NetShape) (image : ImageState) (entries : ℕ)
        (parts : ScriptParts) (v : DomainState) → AreDisks disks → FitsScript entries (world_of disks nets image) parts v
        → (content : List ℕ) → image.told ≡ Some content → bytes_needed disks ≤ length content
        → KeepsOthers (IsOutsideDisks disks (journal_of parts)) content v.first.image.told }
{}

/// No more completions of a disk that nobody forged failed than the image counts faults; and no more of all disks
/// together, where nobody forged one. It counted none at first, and its count can't have stopped at the last value.
pub fn failed_completions_are_counted()
    ensures { (disks : List DiskDecl) (nets : List NetShape) (image : ImageState) (entries : ℕ)
        (parts : ScriptParts) (v : DomainState) → AreDisks disks → FitsScript entries (world_of disks nets image) parts v
        → image.faults ≡ 0 → length (journal_of parts) < 2 ^ 63
        → FailuresCounted (journal_of parts) v.first.image.faults }
{}

/// Each call of the image is told: it was called as often as the journal says `stored`, whether that failed or not. So
/// many of them were flushes, so many writes, and so many failed as the journal says. It is so where nothing was asked of
/// it at first and its count can't have stopped at the last value. These are counts: as many were asked as are told, and
/// no more.
pub fn calls_of_the_image_are_told()
    ensures calls { (disks : List DiskDecl) (nets : List NetShape) (image : ImageState) (entries : ℕ)
        (parts : ScriptParts) (v : DomainState) → AreDisks disks → FitsScript entries (world_of disks nets image) parts v
        → image.calls ≡ 0 → length (journal_of parts) < 2 ^ 63 → v.first.image.calls ≡ stored_count (journal_of parts) }
    ensures flushes { (disks : List DiskDecl) (nets : List NetShape) (image : ImageState) (entries : ℕ)
        (parts : ScriptParts) (v : DomainState) → AreDisks disks → FitsScript entries (world_of disks nets image) parts v
        → image.flushes ≡ 0 → length (journal_of parts) < 2 ^ 63
        → v.first.image.flushes ≡ flush_count (journal_of parts) }
    ensures writes { (disks : List DiskDecl) (nets : List NetShape) (image : ImageState) (entries : ℕ)
        (parts : ScriptParts) (v : DomainState) → AreDisks disks → FitsScript entries (world_of disks nets image) parts v
        → image.writes ≡ 0 → length (journal_of parts) < 2 ^ 63
        → v.first.image.writes ≡ write_count (journal_of parts) }
    ensures faults { (disks : List DiskDecl) (nets : List NetShape) (image : ImageState) (entries : ℕ)
        (parts : ScriptParts) (v : DomainState) → AreDisks disks → FitsScript entries (world_of disks nets image) parts v
        → image.faults ≡ 0 → length (journal_of parts) < 2 ^ 63
        → v.first.image.faults ≡ fault_count (journal_of parts) }
{}

/// Each completion of a disk that nobody forged has the status 0, or 5 where the image failed.
pub fn completions_succeed_or_fail()
    ensures { (disks : List DiskDecl) (nets : List NetShape) (image : ImageState) (entries : ℕ)
        (parts : ScriptParts) (v : DomainState) → AreDisks disks → FitsScript entries (world_of disks nets image) parts v → SucceedOrFail (journal_of parts) }
{}

/// Each entry names what the script declared, a disk or a port, and its values have their words.
pub fn entries_have_their_words()
    ensures { (declared : Declared) (image : ImageState) (entries : ℕ) (parts : ScriptParts) (v : DomainState)
        → AreDisks declared.disks → EachOf IsNetShape (nets_of declared.ports)
        → FitsScript entries (world_of declared.disks (nets_of declared.ports) image) parts v
        → All (HasWords declared) (journal_of parts) }
{}
