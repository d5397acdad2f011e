// A toy kind of lane with rings both ways has its laws by those of any kind.

ghost use Rattle.std.specs.Prelude.{◌≡◌, ◌∷◌, ℕ, List, false, is_some, true};
ghost use Rattle.runs.specs.Run.{Run};
ghost use Rattle.ldc_queue.specs.Transcript.{Heard, Said};
ghost use Rattle.ldc_queue.specs.declared.end.End.TheVariants.{A, B};
ghost use Rattle.ldc_queue.specs.declared.end.End.{End};
ghost use Rattle.lane_models.specs.HandshakeOrder.{HandshakeOrder};
ghost use Rattle.lane_models.specs.TranscriptLog.{transcript_of};
ghost use Rattle.lane_models.specs.WireEvent.{Sent, Took};
ghost use Rattle.lane_models.specs.EndsAtRest.{IsEndAtRest};
ghost use Rattle.lane_models.specs.LaneCore.{role_of, transcript_behind, CoreEvent, OnChannel};
ghost use Rattle.lane_models.specs.OneSession.{AreOneSession};
ghost use Rattle.kind_cases.specs.ToyKind.{fresh_toys, toy_lane, ToyLane, ToyStep};

/// The toy's sessions open in the order of the handshake with rings both ways. On a channel that nobody forged the
/// open sessions of both its ends are one, and each end knows the other's ring. Two toys at rest are in session there,
/// where nothing was lost.
pub fn toys_with_rings_both_ways_have_their_row_and_one_session()
    ensures saying { (events : List CoreEvent) (s : ToyLane) (e : End) (packet : List ℕ) (t : ToyLane)
        → Run ToyStep fresh_toys events s → ToyStep s (OnChannel (Sent e packet true)) t
        → HandshakeOrder true (role_of e) (Said packet ∷ transcript_of e (transcript_behind events)) }
    ensures hearing { (events : List CoreEvent) (s : ToyLane) (e : End) (packet : List ℕ) (t : ToyLane)
        → Run ToyStep fresh_toys events s → ToyStep s (OnChannel (Took e packet true)) t
        → HandshakeOrder true (role_of e) (Heard packet ∷ transcript_of e (transcript_behind events)) }
    ensures one { (events : List CoreEvent) (s : ToyLane) → Run ToyStep fresh_toys events s
        → s.wire.forged ≡ false → is_some s.a.told ≡ true → is_some s.b.told ≡ true
        → AreOneSession s.a.handshake s.b.handshake }
    ensures rest { (events : List CoreEvent) (s : ToyLane) → Run ToyStep fresh_toys events s
        → s.wire.forged ≡ false → s.wire.lossy ≡ false → IsEndAtRest A (toy_lane s) → IsEndAtRest B (toy_lane s)
        → (is_some s.a.told ≡ true) × (is_some s.b.told ≡ true) }
{}
