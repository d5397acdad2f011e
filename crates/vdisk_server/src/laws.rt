// What follows from the definitions.

ghost use Rattle.std.specs.Prelude.{◌≡◌, ℕ, List, Option, false};
ghost use Rattle.ldc_queue.specs.ChannelView.{ChannelView};
ghost use Rattle.lane_models.specs.LaneState.{LaneState};
ghost use Rattle.lane_models.specs.OnChannel.{IsChannelOf};
ghost use Rattle.lane_models.specs.Served.{Served};
ghost use Rattle.lane_models.specs.ServerState.{ServerState};
ghost use Rattle.vdisk_server.specs.Answering.{Serves, channel_after, server_event};
ghost use Rattle.vdisk_server.specs.InLane.{lane_after};
ghost use Rattle.vdisk_server.specs.declared.answers.ServerOut.{ServerOut};

/// A step of the server is one of its lane, with what the store gave. It is of a lane whose server runs, whose wire is
/// what the channel shows, and whose memory and table are those that the step was given. The channel after the step
/// shows the wire after it.
pub fn steps_are_the_lanes()
    ensures served { (s : LaneState) (c : ChannelView) (told new_told : Option (List ℕ)) (answer : ServerOut) (server : ServerState) (memory : List ℕ)
        → s.stopped ≡ false → IsChannelOf c s → Serves s.server c s.table s.memory told answer server memory new_told
        → Served s told (server_event answer) (lane_after s (server_event answer) server memory) new_told }
    ensures wire { (s : LaneState) (c : ChannelView) (answer : ServerOut) (server : ServerState) (memory : List ℕ)
        → IsChannelOf c s → IsChannelOf (channel_after answer c) (lane_after s (server_event answer) server memory) }
{}
