// What follows from the definitions.

ghost use Rattle.std.specs.Prelude.{◌≡◌, ℕ, List, Option};
ghost use Rattle.map_table.specs.declared.table.Entry.{Entry};
ghost use Rattle.vdisk_msg.specs.declared.request.Fill.{Fill};
ghost use Rattle.vdisk_msg.specs.declared.request.Request.TheVariants.{Write};
ghost use Rattle.vdisk_msg.specs.Fills.{IsFill};
ghost use Rattle.vio_tag.specs.declared.cause.Cause.{Cause};
ghost use Rattle.lane_models.specs.WireEvent.{ByStep, giver};
ghost use Rattle.lane_models.specs.ClientRule.{ClientRule};
ghost use Rattle.lane_models.specs.ClientState.{ClientState};
ghost use Rattle.lane_models.specs.ClientStep.{ClientFails};
ghost use Rattle.lane_models.specs.FirstRounds.{RunsFirstRounds};
ghost use Rattle.lane_models.specs.ServerRule.{ServerRule};
ghost use Rattle.lane_models.specs.ServerState.{ServerState};
ghost use Rattle.lane_models.specs.ServerStep.{ServerFails};
ghost use Rattle.cookie_copy.specs.Reach.{Reach};

/// A fresh lane accepts a write of two blocks. The first 24 rounds, a step of the client and one of the server in each,
/// are these. The ends join, the link and the session open, and the write is published and announced, all with the
/// packets that are listed there.
pub fn first_rounds_are_steps()
    ensures { (memory : List ℕ) (table : List (Option Entry)) (fill : Fill) → IsFill fill → RunsFirstRounds memory table (Write 3 2 fill) }
{}

/// An end that resets itself does so for a cause of its own: never for one that a script, a restart or a tick gives. So a lane tells
/// by the cause who reset an end.
pub fn steps_reset_for_their_own_causes()
    ensures client { (rule : ClientRule) (s : ClientState) (memory : List ℕ) (cause : Cause) (packet : Option (List ℕ))
        → ClientFails rule s memory cause packet → giver cause ≡ ByStep }
    ensures server { (rule : ServerRule) (s : ServerState) (reach : Reach) (cause : Cause) (packet : Option (List ℕ)) (new : List ℕ)
        → ServerFails rule s reach cause packet new → giver cause ≡ ByStep }
{}
