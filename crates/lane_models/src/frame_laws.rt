// What always holds of the frames of a port's two ends.

ghost use Rattle.std.specs.Prelude.{◌≡◌, ◌+◌, length};
ghost use Rattle.ldc_link.specs.declared.phase.Role.{Role};
ghost use Rattle.ldc_queue.specs.declared.end.End.{End};
ghost use Rattle.lane_models.specs.FramesStand.{FramesStand};
ghost use Rattle.lane_models.specs.NetEndState.{joined_net_end, unseen};
ghost use Rattle.lane_models.specs.NetLaneState.{net_end, NetLaneState};
ghost use Rattle.lane_models.specs.NetReached.{NetReached};

/// Along every run of a port's lane, forged or not, the counts of the frames of each end stand in their order. It holds
/// no more than its ring has slots. In a session those that are acknowledged are published, those that are published
/// and not acknowledged are held, and each has its id. Where a join or a reset ends the session, the frames that are
/// said to be lost are those that leave.
pub fn frames_stand_in_order()
    ensures order { (s : NetLaneState) → NetReached s → (e : End) → FramesStand (net_end e s) }
    ensures lost { (s : NetLaneState) → NetReached s → (e : End) (role : Role)
        → length (joined_net_end role (net_end e s)).frames + unseen (net_end e s).session ≡ length (net_end e s).frames }
{}
