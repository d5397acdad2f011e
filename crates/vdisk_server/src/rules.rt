// The rules of a step, in their order: the first that applies is the step.

ghost use Rattle.std.specs.Prelude.{◌≡◌, ◌+◌, ◌*◌, ◌≤◌, length, None, Some, false};
ghost use Rattle.cookie_copy.specs.Faults.{PagesWithin, is_up as is_configured};
ghost use Rattle.ldc_link.specs.LinkState.{is_up};
ghost use Rattle.ldc_link.specs.Putting.{owes};
ghost use Rattle.ldc_queue.specs.Wire.{state_of as state_in};
ghost use Rattle.ldc_queue.specs.declared.end.ChannelState.TheVariants.{Up};
ghost use Rattle.ldc_queue.specs.declared.end.End.TheVariants.{B};
ghost use Rattle.lane_models.specs.ServerRule.{Joins, server_rule, serves, takes_first};
ghost use Rattle.vdisk_server.specs.OnStore.{StoreAfter, WithinDisk};
ghost use Rattle.vdisk_server.specs.Answering.{SameDisk, Serves, StepsAlone, channel_after, sees};
ghost use Rattle.vdisk_server.specs.Standing.{Stands};

use crate::answers::ServerOut;
use crate::end::ServerEnd;
use crate::session::RingSession;
use descriptor_work::Progress;
use dom_memory::Memory;
use ldc_link::TakeOut;
use ldc_queue::{Channel, ChannelState, End};
use map_table::MapTable;
use vio_io::Store;

impl ServerEnd {
    /// One step, whose answer is written into the caller's.
    pub fn step<D: Store>(
        &mut self,
        channel: &mut Channel,
        table: &MapTable,
        memory: &mut Memory,
        store: &mut D,
        out: &mut ServerOut,
    )
        requires stands { Stands self.old }
        requires region { 512 * (self.old.first + self.old.blocks) ≤ D.size store.old }
        requires pages { PagesWithin table.now (length memory.old) }
        ensures step { Serves self.old channel.old table.now memory.old (D.content store.old) out.new
            self.new memory.new (D.content store.new) }
        ensures channel { channel.new ≡ channel_after out.new channel.old }
        ensures same_length { length memory.new ≡ length memory.old }
        ensures store { StoreAfter D.Store out.new store.old store.new }
        ensures size { D.size store.new ≡ D.size store.old }
        ensures within { WithinDisk self.old.blocks out.new }
        ensures disk { SameDisk self.old self.new }
    {
        if !is_up(channel) {
            return self.join(channel, out);
        }
        if self.link.owes() {
            return self.put(self.next_put(), channel, out);
        }
        if self.owes_message() {
            return self.say_owed(channel, out);
        }
        if let Some(session) = self.in_hand() {
            return self.serve(session, channel, table, memory, store, out);
        }
        self.take(channel, out)
    }

    // The end isn't up: it begins anew.
    fn join(&mut self, channel: &mut Channel, out: &mut ServerOut)
        requires { server_rule self.old (sees channel.old) ≡ Joins }
        ensures step { StepsAlone self.old channel.old out.new self.new }
        ensures channel { channel.new ≡ channel_after out.new channel.old }
        ensures disk { SameDisk self.old self.new }
    {
        self.begin_anew(channel);
        *out = ServerOut::Joined;
    }
}

/// Whether the server's end is configured.
fn is_up(channel: &Channel) -> bool
    ensures { result ≡ is_configured (state_in B channel.now.wire) }
{
    matches!(channel.state(End::B), ChannelState::Up)
}

// What is worked.
impl ServerEnd {
    // A range is in work: its next descriptor is fetched, or the next piece of the one in work is done.
    fn serve<D: Store>(
        &mut self,
        session: RingSession,
        channel: &mut Channel,
        table: &MapTable,
        memory: &mut Memory,
        store: &mut D,
        out: &mut ServerOut,
    )
        requires stands { Stands self.old }
        requires session { self.old.session ≡ Some session }
        requires rule { server_rule self.old (sees channel.old) ≡ serves session self.old.work }
        requires region { 512 * (self.old.first + self.old.blocks) ≤ D.size store.old }
        requires pages { PagesWithin table.now (length memory.old) }
        ensures step { Serves self.old channel.old table.now memory.old (D.content store.old) out.new
            self.new memory.new (D.content store.new) }
        ensures channel { channel.new ≡ channel_after out.new channel.old }
        ensures same_length { length memory.new ≡ length memory.old }
        ensures store { StoreAfter D.Store out.new store.old store.new }
        ensures size { D.size store.new ≡ D.size store.old }
        ensures within { WithinDisk self.old.blocks out.new }
        ensures disk { SameDisk self.old self.new }
    {
        let Some(work) = &mut self.work else {
            return self.fetch(session, channel, table, memory, out);
        };
        match work.progress {
            Progress::Reads { unit } => {
                out.tell_call(work.read_unit(unit, self.region, &mut self.unit, store));
            }
            Progress::Writes { unit } => {
                out.tell_call(work.write_unit(unit, self.region, &self.unit, store));
            }
            Progress::Flushes => out.tell_call(work.flush(store)),
            Progress::Gives { unit } => out.tell_copy(work.give_unit(
                unit,
                self.region.blocks,
                &self.unit,
                channel,
                table,
                memory,
            )),
            Progress::Gathers { unit } => out.tell_copy(work.gather_unit(
                unit,
                self.region.blocks,
                &mut self.unit,
                channel,
                table,
                memory,
            )),
            Progress::Ends { status } => self.finish(session, status, channel, table, memory, out),
        }
    }
}

// What is taken.
impl ServerEnd {
    // Nothing else is to be done: the packet that has waited longest is taken, if any.
    fn take(&mut self, channel: &mut Channel, out: &mut ServerOut)
        requires stands { Stands self.old }
        requires rule { server_rule self.old (sees channel.old) ≡ takes_first (sees channel.old).first }
        requires up { state_in B channel.old.wire ≡ Up }
        requires free { owes self.old.link ≡ false }
        requires nothing_owed { self.old.handshake.owed ≡ None }
        ensures step { StepsAlone self.old channel.old out.new self.new }
        ensures channel { channel.new ≡ channel_after out.new channel.old }
        ensures disk { SameDisk self.old self.new }
    {
        let was_up = self.link.is_up();
        match self.link.take(channel, End::B) {
            TakeOut::Nothing => *out = ServerOut::Idle,
            TakeOut::Took(packet) => match self.hear(was_up) {
                Ok(opens) => *out = ServerOut::Took { packet, opens },
                Err(cause) => self.reset_for(channel, cause, Some(packet), out),
            },
            TakeOut::Fault { packet, cause } => self.reset_for(channel, cause, Some(packet), out),
        }
    }
}
