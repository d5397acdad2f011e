// What follows for the entries of a world's journal, one by one, and for all that it says of a disk.

ghost use Rattle.std.specs.Prelude.{◌≡◌, ◌<◌, ℕ, false, true, is_some, length, List, Some, ◌∷◌, ◌++◌, slice_get};
ghost use Rattle.runs.specs.Lawful.{log_of};
ghost use Rattle.runs.specs.Run.{Run};
ghost use Rattle.ldc_queue.specs.declared.end.End.TheVariants.{A, B};
ghost use Rattle.lane_models.specs.WireAt.{IsUp};
ghost use Rattle.disk_law.specs.ListState.{ImageState};
ghost use Rattle.lane_laws.specs.Agreement.{AgreesWithLog};
ghost use Rattle.lane_laws.specs.DiskLog.{after, nothing_yet};
ghost use Rattle.lane_laws.specs.May.{IsLawful};
ghost use Rattle.lane_models.specs.DiskEvent.{DiskEvent};
ghost use Rattle.lane_models.specs.LaneState.{LaneState, Shape};
ghost use Rattle.lane_laws.specs.OneSession.{AreOneSession};
ghost use Rattle.world_laws.specs.Along.{happened};
ghost use Rattle.world_laws.specs.Settle.{OfLane, SettleEntry};
ghost use Rattle.world_laws.specs.World.{AreShapes, fresh_world, WorldState, WorldStep};
ghost use Rattle.world_laws.specs.Words.{HasWords};

/// Along every run of a world, forged or not, whether the store fails or not, each event is of a disk of it and can be
/// told in words. An operation is a read, a write or a flush; what a read carries that succeeded is whole blocks, and
/// at least one. A copy was refused for one of its six faults; and no end loses frames by being configured.
pub fn events_have_their_words()
    ensures lanes { (shapes : List Shape) (image : ImageState) (entries : List SettleEntry) (w : WorldState)
        (before : List SettleEntry) (k : ℕ) (event : DiskEvent) (behind : List SettleEntry)
        → AreShapes 0 shapes → Run WorldStep (fresh_world shapes image) entries w
        → before ++ OfLane k event ∷ behind ≡ entries → k < length shapes }
    ensures words { (shapes : List Shape) (image : ImageState) (entries : List SettleEntry) (w : WorldState)
        (before : List SettleEntry) (k : ℕ) (event : DiskEvent) (behind : List SettleEntry)
        → AreShapes 0 shapes → Run WorldStep (fresh_world shapes image) entries w
        → before ++ OfLane k event ∷ behind ≡ entries → HasWords event }
{}

/// Along every run of a world, forged or not, whether the store fails or not: what its journal says of a disk is
/// lawful. Each event may stand in the log of those before it. The disk's lane agrees with the log of them all. Where
/// nobody forged it and both sessions are open, both ends are up, and the sessions are one.
pub fn lanes_are_lawful()
    ensures lawful { (shapes : List Shape) (image : ImageState) (entries : List SettleEntry) (w : WorldState)
        (k : ℕ) (shape : Shape)
        → AreShapes 0 shapes → Run WorldStep (fresh_world shapes image) entries w → slice_get shapes k ≡ Some shape
        → IsLawful shape (happened k entries) }
    ensures agrees { (shapes : List Shape) (image : ImageState) (entries : List SettleEntry) (w : WorldState)
        (k : ℕ) (shape : Shape) (s : LaneState)
        → AreShapes 0 shapes → Run WorldStep (fresh_world shapes image) entries w
        → slice_get shapes k ≡ Some shape → slice_get w.lanes k ≡ Some s
        → AgreesWithLog s (log_of after (nothing_yet shape) (happened k entries)) }
    ensures up { (shapes : List Shape) (image : ImageState) (entries : List SettleEntry) (w : WorldState)
        (k : ℕ) (s : LaneState)
        → AreShapes 0 shapes → Run WorldStep (fresh_world shapes image) entries w → slice_get w.lanes k ≡ Some s
        → s.wire.forged ≡ false → is_some s.client.session ≡ true → is_some s.server.session ≡ true
        → IsUp A s.wire.wire × IsUp B s.wire.wire }
    ensures one { (shapes : List Shape) (image : ImageState) (entries : List SettleEntry) (w : WorldState)
        (k : ℕ) (s : LaneState)
        → AreShapes 0 shapes → Run WorldStep (fresh_world shapes image) entries w → slice_get w.lanes k ≡ Some s
        → s.wire.forged ≡ false → is_some s.client.session ≡ true → is_some s.server.session ≡ true
        → AreOneSession s.client.handshake s.server.handshake }
{}
