// The line that ends a dump.
ghost use Rattle.std.specs.Prelude.{◌≡◌, ◌≢◌, ◌+◌, ◌≤◌, ◌++◌, length, OnErr, OnOk, IsErr};
ghost use Rattle.std.specs.Io.KnownBytes.{Appends};
ghost use Rattle.vio_io.specs.Causes.{Fails};
ghost use Rattle.gathered_text.specs.Gathered.{WroteFront};
ghost use Rattle.ldom_dump.specs.DumpReport.{counts_text, end_line};
ghost use Rattle.ldom_dump.specs.Going.{Finishes};

use crate::fields::push_field;
use crate::lines::Ended;
use gathered_text::{TEXT_ROOM, Text};
use ldom_report::{Status, push_cause};
use vio_io::{Failed, Sink};

/// More bytes than the line has.
const END_ROOM: usize = 512;

fn push_counts(text: &mut Text, ended: &Ended)
    requires { length text.old + 100 ≤ TEXT_ROOM }
    ensures text { text.new ≡ text.old ++ counts_text ended.now.lines ended.now.packets ended.now.faults }
    ensures len { length text.new ≤ length text.old + 100 }
{
    push_field(text, b"end lines=", u64::from(ended.lines));
    push_field(text, b" packets=", u64::from(ended.packets));
    push_field(text, b" faults=", u64::from(ended.faults));
}

fn push_end(text: &mut Text, ended: &Ended)
    requires { length text.old + END_ROOM ≤ TEXT_ROOM }
    ensures { text.new ≡ text.old ++ end_line ended.now.lines ended.now.packets ended.now.faults ended.now.why }
{
    push_counts(text, ended);
    push_field(text, b" status=", u64::from(ended.why.number()));
    push_cause(text, &ended.why);
    text.push(b"\n");
}

/// Writes what was gathered, and the last line. After `Failed` a front of them was written.
fn put_end<K: Sink>(text: &mut Text, ended: &Ended, out: &mut K) -> Result<(), Failed>
    ensures told { OnOk result (Appends (K.written out.old) (K.written out.new) (text.old ++ end_line ended.now.lines ended.now.packets ended.now.faults ended.now.why)) }
    ensures front { OnErr result (WroteFront (K.written out.old) (K.written out.new) (text.old ++ end_line ended.now.lines ended.now.packets ended.now.faults ended.now.why)) }
    ensures few { length text.old ≤ TEXT_ROOM }
    ensures faults { Fails (IsErr result) (K.faults out.old) (K.faults out.new) }
{
    text.make_room(END_ROOM, out)?;
    push_end(text, ended);
    text.flush(out)
}

/// Ends a dump, unless the sink failed before. Answers its status.
pub fn finish<K: Sink>(text: &mut Text, ended: &Ended, out: &mut K) -> Status
    ensures finishes { Finishes ended.now.why result (K.written out.old) (K.written out.new) text.old (end_line ended.now.lines ended.now.packets ended.now.faults ended.now.why) }
    ensures other { result ≢ Status.SinkFault → result ≡ ended.now.why }
    ensures faults { Fails ((result ≡ Status.SinkFault) × (ended.now.why ≢ Status.SinkFault))
        (K.faults out.old) (K.faults out.new) }
{
    if matches!(ended.why, Status::SinkFault) {
        return Status::SinkFault;
    }
    match put_end(text, ended, out) {
        Ok(()) => ended.why,
        Err(Failed) => Status::SinkFault,
    }
}
