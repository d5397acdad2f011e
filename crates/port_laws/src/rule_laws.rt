// Where the events of a port's frames may stand, along every run, forged or not.

ghost use Rattle.std.specs.Prelude.{◌≡◌, ◌++◌, drop, List};
ghost use Rattle.runs.specs.Lawful.{log_of, Lawful};
ghost use Rattle.runs.specs.Run.{Run};
ghost use Rattle.lane_models.specs.FrameLaws.{AcknowledgesAt, AdmissionAt, AnnouncesAt, AsksAt, LostAt, PublishedAt, SeesAt, TakingAt};
ghost use Rattle.lane_models.specs.NetLaneState.{IsNetShape, NetShape};
ghost use Rattle.lane_models.specs.PortLog.{after, no_events};
ghost use Rattle.lane_models.specs.PortState.{fresh_port, PortEvent, PortState, PortStep};

/// Along every run of a port, forged or not, a frame that is given to the guest is refused for its length exactly where
/// it hasn't 14 to 1,514 bytes. Else it is refused as one too many exactly where as many are held as the ring has
/// slots. Held are those given that no ACK named and no reset lost. Else its id is the number of those given before it.
pub fn a_frame_is_queued_or_refused_rightly()
    ensures { (shape : NetShape) (events : List PortEvent) (s : PortState) → IsNetShape shape → Run PortStep (fresh_port shape) events s
        → Lawful AdmissionAt after (no_events shape) events }
{}

/// Along every run of a port, forged or not, an end publishes only in an open session. The frames that it publishes have
/// the ids 0, 1, 2 and so on over all its sessions, each below the number of those that it was given.
pub fn frames_are_published_in_order()
    ensures { (shape : NetShape) (events : List PortEvent) (s : PortState) → IsNetShape shape → Run PortStep (fresh_port shape) events s
        → Lawful PublishedAt after (no_events shape) events }
{}

/// Along every run of a port, forged or not, each join and each reset of an end tells how many frames are lost. They are
/// those that it published in the session that ends, less those that an ACK named, and none where no session was open.
pub fn lost_frames_are_published_and_not_acknowledged()
    ensures { (shape : NetShape) (events : List PortEvent) (s : PortState) → IsNetShape shape → Run PortStep (fresh_port shape) events s
        → Lawful LostAt after (no_events shape) events }
{}

/// Along every run of a port, forged or not: the DRING_DATA INFO that an end says in a session have the numbers 1, 2
/// and so on. They have no end and state 1. An ACK was taken between two of them. Each begins at the slot of the first
/// frame that no ACK named, and there is one.
pub fn each_announcement_begins_at_the_first_frame_left()
    ensures { (shape : NetShape) (events : List PortEvent) (s : PortState) → IsNetShape shape → Run PortStep (fresh_port shape) events s
        → Lawful AnnouncesAt after (no_events shape) events }
{}

/// Along every run of a port, forged or not, the DRING_DATA ACK that an end takes in a session name together no more
/// frames than it published in it.
pub fn no_ack_goes_beyond_what_is_published()
    ensures { (shape : NetShape) (events : List PortEvent) (s : PortState) → IsNetShape shape → Run PortStep (fresh_port shape) events s
        → Lawful SeesAt after (no_events shape) events }
{}

/// Along every run of a port, forged or not, the DRING_DATA INFO that an end takes in a session have the numbers 1, 2 and
/// so on. Each begins at the slot of the frame that the end takes next, and names no end or a slot of the ring. The end
/// answered the one before.
pub fn each_announcement_that_is_taken_is_the_next()
    ensures { (shape : NetShape) (events : List PortEvent) (s : PortState) → IsNetShape shape → Run PortStep (fresh_port shape) events s
        → Lawful AsksAt after (no_events shape) events }
{}

/// Along every run of a port, forged or not, a frame that an end takes has 14 to 1,514 bytes. An end takes one only in an
/// open session. There the DRING_DATA INFO that it took are one more than the DRING_DATA ACK that it said.
pub fn a_frame_is_taken_while_an_announcement_waits()
    ensures { (shape : NetShape) (events : List PortEvent) (s : PortState) → IsNetShape shape → Run PortStep (fresh_port shape) events s
        → Lawful TakingAt after (no_events shape) events }
{}

/// Along every run of a port, forged or not, each DRING_DATA ACK that an end says in a session has state 2. It has the
/// number of the INFO that it answers. It names the slots of the frames that the end took since its ACK before, of which
/// there is one at least.
pub fn each_ack_names_the_frames_taken_since_the_last()
    ensures { (shape : NetShape) (events : List PortEvent) (s : PortState) → IsNetShape shape → Run PortStep (fresh_port shape) events s
        → Lawful AcknowledgesAt after (no_events shape) events }
{}

/// Along every run of a port, forged or not, what an end holds is what it was given and is neither acknowledged nor lost,
/// in order and byte by byte. At the switch's end what waits in the out queue follows.
pub fn an_end_holds_the_frames_that_it_was_given()
    ensures guest { (shape : NetShape) (events : List PortEvent) (s : PortState) → IsNetShape shape → Run PortStep (fresh_port shape) events s
        → s.lane.guest.frames ≡ drop (log_of after (no_events shape) events).guest.gone (log_of after (no_events shape) events).guest.given }
    ensures hub { (shape : NetShape) (events : List PortEvent) (s : PortState) → IsNetShape shape → Run PortStep (fresh_port shape) events s
        → s.lane.hub.frames ++ s.queue ≡ drop (log_of after (no_events shape) events).hub.gone (log_of after (no_events shape) events).hub.given }
{}
