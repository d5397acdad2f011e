ghost use Rattle.std.specs.Prelude.{◌≡◌, ◌+◌, ◌<◌, ◌≤◌, [], ◌∷◌, ◌++◌, length, false};
ghost use Rattle.ldom_journal.specs.Counts.{accepted_count, done_count, frame_count, is_accepted, is_done, is_frame};
ghost use Rattle.ldom_journal.specs.Counts.{reset_count};

use crate::kept_entries::KeptEntries;
use crate::reading::nth;
use cookie_copy::CopyFault;
use domain_script::EndName;
use ldom_entries::{
    Bytes, Entries, Entry, EntryRef, Header, KeptRequest, Who, Why, mark_of, part_of,
};
use std::alloc::Global;
use std::marker::Model;
use vio_bytes::NoMemory;
use vio_tag::Cause;

/// The entries of a run in the order in which they came, and the room that is left for more of them. Those that a
/// report counts are counted as they come.
#[derive(Drop)]
pub struct Journal {
    kept: KeptEntries,
    accepted: usize,
    done: usize,
    resets: usize,
    frames: usize,
}

impl Model for Journal {
    ghost use Rattle.std.specs.Prelude.{◌≡◌};
    ghost use Rattle.ldom_journal.specs.Counts.{accepted_count, done_count, frame_count, reset_count};
    ghost use Rattle.ldom_entries.specs.JournalState.{JournalState};

    ghost Value = { JournalState };

    ghost view = { λ j. j.kept };

    ghost invariant = { λ j. record {
      accepted : j.accepted ≡ accepted_count j.kept.entries;
      done : j.done ≡ done_count j.kept.entries;
      resets : j.resets ≡ reset_count j.kept.entries;
      frames : j.frames ≡ frame_count j.kept.entries;
    } };
}

#[tactic(auto, using(crate::proofs::Counting::counted))]
impl Journal {
    ghost use Rattle.std.specs.Prelude.{◌↔◌, ◌^◌, max, Some, IsOk, IsTrue, IfSome, IsNone, OnErr, OnOk, slice_get};
    ghost use Rattle.kept_requests.specs.Bytes.{filled};
    ghost use Rattle.ldom_entries.specs.JournalState.{PutsEntry};
    ghost use Rattle.ldom_entries.specs.Told.{told};
    ghost use Rattle.ldom_entries.specs.declared.entry.Entry.TheVariants as the_entry;

    /// No entries, and no room. It takes no memory.
    pub fn new(alloc: Global) -> Self
        ensures { result ≡ record { entries = []; room = 0 } }
    {
        Journal {
            kept: KeptEntries::new(alloc),
            accepted: 0,
            done: 0,
            resets: 0,
            frames: 0,
        }
    }

    /// Makes room for n more entries, if there isn't yet. The memory grows by doubling, so that asking for one entry at
    /// a time costs no more than linear time. Where there is that room already, nothing is asked for. After `NoMemory`
    /// the journal is as it was.
    pub fn reserve(&mut self, n: usize) -> Result<(), NoMemory>
        ensures entries { self.new.entries ≡ self.old.entries }
        ensures room { OnOk result (self.new.room ≡ max self.old.room n) }
        ensures same { OnErr result (self.new.room ≡ self.old.room) }
        ensures there { n ≤ self.old.room → IsOk result }
    {
        self.kept.reserve(n)
    }

    /// A request that was taken up, put last. As each of the calls below, it takes no memory and wants room.
    pub fn push_accepted(&mut self, disk: u32, id: u64, request: KeptRequest)
        requires { 0 < self.old.room }
        ensures { PutsEntry self.old (the_entry.Accepted disk id request) self.new }
    {
        // That there are fewer than 2^63 entries is known by this call alone. So the count fits.
        let _len = self.kept.len();
        self.kept.push_accepted(disk, id, request);
        self.accepted += 1;
    }

    /// An end that has nothing to do.
    pub fn push_idle(&mut self, end: EndName)
        requires { 0 < self.old.room }
        ensures { PutsEntry self.old (the_entry.Idle end) self.new }
    {
        self.kept.push_plain(Header::Idle {
            at: mark_of(end),
            number: end.lane.number,
        });
    }

    /// The end of a stopped server, which was to make a step.
    pub fn push_off(&mut self, end: EndName)
        requires { 0 < self.old.room }
        ensures { PutsEntry self.old (the_entry.Off end) self.new }
    {
        self.kept.push_plain(Header::Off {
            at: mark_of(end),
            number: end.lane.number,
        });
    }

    /// An end that has no room for its next packet.
    pub fn push_blocked(&mut self, end: EndName)
        requires { 0 < self.old.room }
        ensures { PutsEntry self.old (the_entry.Blocked end) self.new }
    {
        self.kept.push_plain(Header::Blocked {
            at: mark_of(end),
            number: end.lane.number,
        });
    }

    /// An end that was configured, and so many frames were lost by that.
    pub fn push_joined(&mut self, end: EndName, lost: u32)
        requires { 0 < self.old.room }
        ensures { PutsEntry self.old (the_entry.Joined end lost) self.new }
    {
        let header = Header::Joined {
            at: mark_of(end),
            number: end.lane.number,
        };
        self.kept.push_number(header, u64::from(lost));
    }

    /// An end that took a packet, and its session may have opened by it.
    pub fn push_took(&mut self, end: EndName, packet: &[u8; 64], opens: bool)
        requires { 0 < self.old.room }
        ensures { PutsEntry self.old (the_entry.Took end packet.now opens) self.new }
    {
        let header = Header::Took {
            at: mark_of(end),
            opens,
            number: end.lane.number,
        };
        self.kept.push_packet(header, packet);
    }

    /// An end that put a packet, and its session may have opened by it.
    pub fn push_sent(&mut self, end: EndName, packet: &[u8; 64], opens: bool)
        requires { 0 < self.old.room }
        ensures { PutsEntry self.old (the_entry.Sent end packet.now opens) self.new }
    {
        let header = Header::Sent {
            at: mark_of(end),
            opens,
            number: end.lane.number,
        };
        self.kept.push_packet(header, packet);
    }

    /// A request that the client put into its ring.
    pub fn push_published(&mut self, end: EndName, id: u64)
        requires { 0 < self.old.room }
        ensures { PutsEntry self.old (the_entry.Published end id) self.new }
    {
        let header = Header::Published {
            at: mark_of(end),
            number: end.lane.number,
        };
        self.kept.push_number(header, id);
    }

    /// A request that was completed.
    pub fn push_done(&mut self, disk: u32, id: u64, operation: u8, status: u32, bytes: Bytes)
        requires { 0 < self.old.room }
        ensures { PutsEntry self.old (the_entry.Done disk id operation status bytes) self.new }
    {
        // That there are fewer than 2^63 entries is known by this call alone. So the count fits.
        let _len = self.kept.len();
        self.kept.push_done(disk, id, operation, status, bytes);
        self.done += 1;
    }

    /// A descriptor that the server fetched.
    pub fn push_desc(&mut self, end: EndName, slot: u32, bytes: &[u8; 128])
        requires { 0 < self.old.room }
        ensures { PutsEntry self.old (the_entry.Desc end slot bytes.now) self.new }
    {
        self.kept.push_desc(end, slot, bytes);
    }

    /// A unit that the server copied, or why it couldn't.
    pub fn push_moved(&mut self, end: EndName, unit: u32, fault: Option<CopyFault>)
        requires { 0 < self.old.room }
        ensures { PutsEntry self.old (the_entry.Moved end unit fault) self.new }
    {
        let at = mark_of(end);
        let number = end.lane.number;
        let header = match fault {
            None => Header::Moved { at, number },
            Some(fault) => Header::NotMoved { at, fault, number },
        };
        self.kept.push_number(header, u64::from(unit));
    }

    /// A call of the server's store, and whether it failed.
    pub fn push_stored(&mut self, end: EndName, operation: u8, block: u64, count: u64, failed: bool)
        requires { 0 < self.old.room }
        ensures { PutsEntry self.old (the_entry.Stored end operation block count failed) self.new }
    {
        let at = mark_of(end);
        let number = end.lane.number;
        let header = if failed {
            Header::NotStored {
                at,
                operation,
                number,
            }
        } else {
            Header::Stored {
                at,
                operation,
                number,
            }
        };
        self.kept.push_numbers(header, block, count);
    }

    /// A descriptor that the server gave its status.
    pub fn push_finished(&mut self, end: EndName, slot: u32, status: u32)
        requires { 0 < self.old.room }
        ensures { PutsEntry self.old (the_entry.Finished end slot status) self.new }
    {
        let header = Header::Finished {
            at: mark_of(end),
            number: end.lane.number,
        };
        self.kept
            .push_numbers(header, u64::from(slot), u64::from(status));
    }

    /// An end that was reset, maybe by a packet that it took, and so many frames were lost by that.
    pub fn push_reset(&mut self, end: EndName, cause: Cause, packet: &Option<[u8; 64]>, lost: u32)
        requires { 0 < self.old.room }
        ensures { PutsEntry self.old (the_entry.Reset end cause packet.now lost) self.new }
    {
        // That there are fewer than 2^63 entries is known by this call alone. So the count fits.
        let _len = self.kept.len();
        self.kept.push_reset(end, cause, packet, lost);
        self.resets += 1;
    }

    /// A packet that had waited longest for an end, and was lost.
    pub fn push_lost(&mut self, end: EndName, packet: &[u8; 64])
        requires { 0 < self.old.room }
        ensures { PutsEntry self.old (the_entry.Lost end packet.now) self.new }
    {
        let header = Header::Lost {
            at: mark_of(end),
            number: end.lane.number,
        };
        self.kept.push_packet(header, packet);
    }

    /// A packet that the peer never put, and that waits for an end.
    pub fn push_injected(&mut self, end: EndName, packet: &[u8; 64])
        requires { 0 < self.old.room }
        ensures { PutsEntry self.old (the_entry.Injected end packet.now) self.new }
    {
        let header = Header::Injected {
            at: mark_of(end),
            number: end.lane.number,
        };
        self.kept.push_packet(header, packet);
    }

    /// A frame that was handed to a port's guest. As in the calls below, its bytes are copied.
    pub fn push_queued(&mut self, port: u32, id: u64, bytes: &[u8])
        requires room { 0 < self.old.room }
        requires short { length bytes.now ≤ 1514 }
        ensures { PutsEntry self.old (the_entry.Queued port id (filled bytes.now)) self.new }
    {
        self.kept.push_frame(Header::Queued { port }, &[id], bytes);
    }

    /// A frame that the switch took from a port, with the ports that have it and those whose queues were full.
    pub fn push_switched(&mut self, end: EndName, out: u32, full: u32, bytes: &[u8])
        requires room { 0 < self.old.room }
        requires short { length bytes.now ≤ 1514 }
        ensures { PutsEntry self.old (the_entry.Switched end out full (filled bytes.now)) self.new }
    {
        let header = Header::Switched {
            at: mark_of(end),
            number: end.lane.number,
        };
        self.kept
            .push_frame(header, &[u64::from(out), u64::from(full)], bytes);
    }

    /// A frame that a port's guest took.
    pub fn push_frame(&mut self, end: EndName, bytes: &[u8])
        requires room { 0 < self.old.room }
        requires short { length bytes.now ≤ 1514 }
        ensures { PutsEntry self.old (the_entry.Frame end (filled bytes.now)) self.new }
    {
        // That there are fewer than 2^63 entries is known by this call alone. So the count fits.
        let _len = self.kept.len();
        let header = Header::Frame {
            at: mark_of(end),
            number: end.lane.number,
        };
        self.kept.push_frame(header, &[], bytes);
        self.frames += 1;
    }

    /// The same with bytes that have memory of their own, which is kept.
    fn push_kept_frame(&mut self, end: EndName, bytes: Bytes)
        requires { 0 < self.old.room }
        ensures { PutsEntry self.old (the_entry.Frame end bytes) self.new }
    {
        // That there are fewer than 2^63 entries is known by this call alone. So the count fits.
        let _len = self.kept.len();
        self.kept.push_whole(Entry::Frame { end, bytes });
        self.frames += 1;
    }

    /// As many requests or frames are pending as the ring holds, or as many packets wait for an end as its queue holds.
    pub fn push_full(&mut self, who: Who)
        requires { 0 < self.old.room }
        ensures { PutsEntry self.old (the_entry.Full who) self.new }
    {
        let (part, lane) = part_of(who);
        self.kept.push_plain(Header::Full {
            part,
            kind: lane.kind,
            number: lane.number,
        });
    }

    /// A request that was refused.
    fn push_refused(&mut self, who: Who, why: Why)
        requires { 0 < self.old.room }
        ensures { PutsEntry self.old (the_entry.Refused who why) self.new }
    {
        let (part, lane) = part_of(who);
        self.kept.push_plain(Header::Refused {
            part,
            kind: lane.kind,
            why,
            number: lane.number,
        });
    }

    /// What a line asked for and changes nothing.
    pub fn push_calm(&mut self, who: Who)
        requires { 0 < self.old.room }
        ensures { PutsEntry self.old (the_entry.Calm who) self.new }
    {
        let (part, lane) = part_of(who);
        self.kept.push_plain(Header::Calm {
            part,
            kind: lane.kind,
            number: lane.number,
        });
    }

    /// A settle that ended though something is left to do here.
    fn push_unsettled(&mut self, who: Who)
        requires { 0 < self.old.room }
        ensures { PutsEntry self.old (the_entry.Unsettled who) self.new }
    {
        let (part, lane) = part_of(who);
        self.kept.push_plain(Header::Unsettled {
            part,
            kind: lane.kind,
            number: lane.number,
        });
    }

    /// Puts an entry last, into room that was reserved. It takes no memory.
    pub fn push(&mut self, entry: Entry)
        requires { 0 < self.old.room }
        ensures entries { self.new.entries ≡ self.old.entries ++ entry ∷ [] }
        ensures room { self.new.room + 1 ≡ self.old.room }
    {
        match entry {
            Entry::Accepted { disk, id, request } => self.push_accepted(disk, id, request),
            Entry::Done {
                disk,
                id,
                operation,
                status,
                bytes,
            } => self.push_done(disk, id, operation, status, bytes),
            Entry::Frame { end, bytes } => self.push_kept_frame(end, bytes),
            other => self.push_other(other),
        }
    }

    /// Puts an entry last that neither takes up a request nor completes one, and isn't a frame.
    fn push_other(&mut self, entry: Entry)
        requires room { 0 < self.old.room }
        requires accepted { is_accepted entry ≡ false }
        requires done { is_done entry ≡ false }
        requires frame { is_frame entry ≡ false }
        ensures { PutsEntry self.old entry self.new }
    {
        match entry {
            Entry::Full { who } => self.push_full(who),
            Entry::Refused { who, why } => self.push_refused(who, why),
            Entry::Lost { end, packet } => self.push_lost(end, &packet),
            Entry::Injected { end, packet } => self.push_injected(end, &packet),
            Entry::Stopped { disk } => self.kept.push_plain(Header::Stopped { disk }),
            Entry::Started { disk } => self.kept.push_plain(Header::Started { disk }),
            Entry::Calm { who } => self.push_calm(who),
            Entry::Settled => self.kept.push_plain(Header::Settled),
            Entry::Unsettled { who } => self.push_unsettled(who),
            Entry::Idle { end } => self.push_idle(end),
            Entry::Off { end } => self.push_off(end),
            Entry::Blocked { end } => self.push_blocked(end),
            Entry::Joined { end, lost } => self.push_joined(end, lost),
            Entry::Took { end, packet, opens } => self.push_took(end, &packet, opens),
            Entry::Sent { end, packet, opens } => self.push_sent(end, &packet, opens),
            Entry::Published { end, id } => self.push_published(end, id),
            Entry::Desc { end, slot, bytes } => self.push_desc(end, slot, &bytes),
            Entry::Moved { end, unit, fault } => self.push_moved(end, unit, fault),
            Entry::Stored {
                end,
                operation,
                block,
                count,
                failed,
            } => self.push_stored(end, operation, block, count, failed),
            Entry::Finished { end, slot, status } => self.push_finished(end, slot, status),
            Entry::Reset {
                end,
                cause,
                packet,
                lost,
            } => self.push_reset(end, cause, &packet, lost),
            whole => self.kept.push_whole(whole),
        }
    }

    /// How many entries there are.
    pub fn len(&self) -> usize
        ensures count { result ≡ length self.now.entries }
        ensures small { length self.now.entries < 2 ^ 63 }
    {
        self.kept.len()
    }

    /// Whether there are no entries.
    pub fn is_empty(&self) -> bool
        ensures { IsTrue result ↔ (length self.now.entries ≡ 0) }
    {
        self.kept.is_empty()
    }

    /// The k-th entry, counted from 0. None exactly where there are k or fewer. Those before it are read on the way: to
    /// read many, take `entries`.
    pub fn get(&self, k: usize) -> Option<EntryRef<'_>>
        ensures some { IfSome result (λ entry. slice_get self.now.entries k ≡ Some (told entry)) }
        ensures none { IsNone result ↔ length self.now.entries ≤ k }
    {
        nth(self.entries(), k)
    }

    /// The entries, to be read in order.
    pub fn entries(&self) -> Entries<'_>
        ensures { result ≡ self.now.entries }
    {
        self.kept.entries()
    }

    /// How many requests were taken up.
    pub fn accepted(&self) -> usize
        ensures { result ≡ accepted_count self.now.entries }
    {
        self.accepted
    }

    /// How many requests were completed.
    pub fn done(&self) -> usize
        ensures { result ≡ done_count self.now.entries }
    {
        self.done
    }

    /// How often an end was reset.
    pub fn resets(&self) -> usize
        ensures { result ≡ reset_count self.now.entries }
    {
        self.resets
    }

    /// How many frames the guests of ports took.
    pub fn frames(&self) -> usize
        ensures { result ≡ frame_count self.now.entries }
    {
        self.frames
    }
}
