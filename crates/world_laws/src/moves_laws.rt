// What follows for a world along every run.

ghost use Rattle.std.specs.Prelude.{List};
ghost use Rattle.runs.specs.Run.{Run};
ghost use Rattle.disk_law.specs.ListState.{ImageState};
ghost use Rattle.lane_models.specs.LaneState.{Shape};
ghost use Rattle.world_laws.specs.Settle.{SettleEntry};
ghost use Rattle.world_laws.specs.WorldAlong.{LanesRun};
ghost use Rattle.world_laws.specs.World.{WorldState, WorldStep, fresh_world};

/// Each lane of a world is run by what the journal says happened to it: other lanes' events leave it as it is.
pub fn each_lane_runs_by_its_events()
    ensures { (shapes : List Shape) (image : ImageState) (entries : List SettleEntry) (w : WorldState)
        → Run WorldStep (fresh_world shapes image) entries w → LanesRun shapes entries w }
{}
