// What follows from the definitions.

ghost use Rattle.std.specs.Prelude.{◌≡◌, ℕ, List};
ghost use Rattle.ldc_queue.specs.ChannelView.{ChannelView};
ghost use Rattle.lane_models.specs.ClientState.{ClientState};
ghost use Rattle.lane_models.specs.LaneState.{LaneState};
ghost use Rattle.lane_models.specs.LaneStep.{LaneStep};
ghost use Rattle.lane_models.specs.OnChannel.{IsChannelOf};
ghost use Rattle.vdisk_client.specs.Calls.{Steps, client_event};
ghost use Rattle.vdisk_client.specs.OnLane.{client_moved};
ghost use Rattle.vdisk_client.specs.declared.answers.ClientOut.{ClientOut};

/// A client's step on the channel and the memory of a disk's lane is one step of the lane, by its answer. The channel
/// is the lane's after it, as it was before.
pub fn steps_are_the_lanes()
    ensures step { (s : LaneState) (c d : ChannelView) (answer : ClientOut) (t : ClientState) (new : List ℕ)
        → IsChannelOf c s → Steps s.client c s.memory answer t d new
        → LaneStep s (client_event answer t.last) (client_moved s (client_event answer t.last) t new) }
    ensures channel { (s : LaneState) (c d : ChannelView) (answer : ClientOut) (t : ClientState) (new : List ℕ)
        → IsChannelOf c s → Steps s.client c s.memory answer t d new
        → IsChannelOf d (client_moved s (client_event answer t.last) t new) }
{}
