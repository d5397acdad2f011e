// A quiet script over a world of lanes, as a plain list of requests.

ghost use Rattle.std.specs.Prelude.{◌≡◌, ℕ, ◌*◌, ◌≤◌, List, [], ◌∷◌, length, None, Some};
ghost use Rattle.disk_law.specs.ListState.{ImageState};
ghost use Rattle.domain_script.specs.Declarations.{IsDisk};
ghost use Rattle.domain_script.specs.declared.event.DiskDecl.{DiskDecl};
ghost use Rattle.world_parts.specs.domain_laws.Domain.{DomainState};
ghost use Rattle.ldom_report.specs.Report.{report};
ghost use Rattle.ldom_report.specs.declared.status.Mode.TheVariants as mode;
ghost use Rattle.ldom_report.specs.declared.status.Status.TheVariants as status;
ghost use Rattle.script_laws.specs.PlainRun.{one_disk, plain_text, plain_content, plain_ids};
ghost use Rattle.script_laws.specs.Quiet.{IsQuiet};
ghost use Rattle.script_laws.specs.Completed.{completed_ids};
ghost use Rattle.world_parts.specs.Declared.{world_of};
ghost use Rattle.world_parts.specs.Script.{FitsScript, ScriptParts, events_of, journal_of};

/// Let an image tell its bytes, be long enough and never have failed. Over it a quiet script that its journal fits has
/// the text, leaves the content and completes the ids that the plain run gives.
pub fn a_quiet_script_runs_plainly()
    ensures text { (disk : DiskDecl) (image : ImageState) (content : List ℕ) (parts : ScriptParts) (v : DomainState)
        → IsDisk disk → image.told ≡ Some content → 512 * disk.blocks ≤ length content
        → IsQuiet disk (events_of parts) → parts.cut ≡ None → FitsScript 0 (world_of (disk ∷ []) [] image) parts v
        → v.first.image.faults ≡ 0
        → report mode.Run (one_disk disk) (length (events_of parts)) (journal_of parts) status.Done
        ≡ plain_text disk content (events_of parts) }
    ensures content { (disk : DiskDecl) (image : ImageState) (content : List ℕ) (parts : ScriptParts) (v : DomainState)
        → IsDisk disk → image.told ≡ Some content → 512 * disk.blocks ≤ length content
        → IsQuiet disk (events_of parts) → parts.cut ≡ None → FitsScript 0 (world_of (disk ∷ []) [] image) parts v
        → v.first.image.faults ≡ 0
        → v.first.image.told ≡ Some (plain_content disk content (events_of parts)) }
    ensures ids { (disk : DiskDecl) (image : ImageState) (content : List ℕ) (parts : ScriptParts) (v : DomainState)
        → IsDisk disk → image.told ≡ Some content → 512 * disk.blocks ≤ length content
        → IsQuiet disk (events_of parts) → parts.cut ≡ None → FitsScript 0 (world_of (disk ∷ []) [] image) parts v
        → v.first.image.faults ≡ 0
        → completed_ids (journal_of parts) ≡ plain_ids disk content (events_of parts) }
{}
