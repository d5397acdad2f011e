// A quiet script over one disk, as a plain list of requests.

ghost use Rattle.std.specs.Prelude.{ℕ, List};
ghost use Rattle.disk_law.specs.ListState.{ImageState};
ghost use Rattle.lane_models.specs.LaneState.{Shape};
ghost use Rattle.world_laws.specs.Quiet.{IsAtFront};
ghost use Rattle.world_laws.specs.Settle.{SettleEntry};
ghost use Rattle.domain_laws.specs.Domain.{DomainState};
ghost use Rattle.domain_laws.specs.Lines.{Line};
ghost use Rattle.domain_laws.specs.Quiet.{RunsPlainly, RunsQuietly};

/// In a world of one disk and no port, let lines only ask the disk, settle or do nothing. Then what they show is what a
/// plain list of requests shows. The disk begins the image, which is told and never failed. A request is refused for
/// its defect, finds as many waiting as the ring has slots, or waits. A settle completes all that wait, in order, each
/// once and with the status 0. Each read has the bytes that the image has after the writes before it. And nothing else
/// is shown, so that no end was reset. After each line the image has exactly the plain list's bytes.
pub fn a_quiet_world_is_a_plain_list()
    ensures { (shape : Shape) (image : ImageState) (first : List ℕ) (lines : List (Line × List SettleEntry))
        (w : DomainState)
        → IsAtFront shape image first → RunsQuietly shape image lines w → RunsPlainly shape first lines w }
{}
