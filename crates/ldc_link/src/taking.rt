// What a link takes.

ghost use Rattle.std.specs.Prelude.{◌≡◌, ◌≢◌, None, IfErr, OnErr, OnOk};
ghost use Rattle.ldc_packet.specs.Form.{IsWellFormed};

use crate::link::Link;
use crate::phase::LinkPhase;
use ldc_packet::{Body, Packet, PartHead, Subtype, decode, part_head, part_within};
use vio_tag::Cause;

impl Link {
    ghost use Rattle.ldc_queue.specs.Fragments.{Fragment};
    ghost use Rattle.vio_tag.specs.declared.cause.Cause.TheVariants as cause;
    ghost use Rattle.ldc_link.specs.Hearing.{answer_of};
    ghost use Rattle.ldc_link.specs.Taking.{counted, goes_to, in_turn, link_take, phase_behind_rdx, takes_part, TakesBytes};

    /// Takes these bytes, or says why not.
    #[tactic(auto, using(crate::proofs::Owing::part_taken))]
    pub(crate) fn take_bytes(&mut self, bytes: &[u8; 64]) -> Result<(), Cause>
        requires { self.old.whole ≡ None }
        ensures exact { TakesBytes self.old bytes.now (answer_of result self.new) }
        ensures unchanged { OnErr result (self.new ≡ self.old) }
    {
        match part_head(bytes) {
            Some(head) => self.take_part(head, part_within(bytes, head.len)),
            None => self.take_other(bytes),
        }
    }

    // Takes bytes that are no part, or says why not. Not within its caller, so that a part passes by the packet that is
    // decoded.
    #[inline(never)]
    fn take_other(&mut self, bytes: &[u8; 64]) -> Result<(), Cause>
        requires { self.old.whole ≡ None }
        ensures exact { TakesBytes self.old bytes.now (answer_of result self.new) }
        ensures unchanged { OnErr result (self.new ≡ self.old) }
    {
        match decode(bytes) {
            Ok(packet) => self.take_packet(&packet),
            Err(fault) => Err(Cause::Packet(fault)),
        }
    }

    fn take_packet(&mut self, packet: &Packet) -> Result<(), Cause>
        requires form { IsWellFormed packet.now }
        requires no_message { self.old.whole ≡ None }
        ensures exact { answer_of result self.new ≡ link_take self.old packet.now }
        ensures unchanged { OnErr result (self.new ≡ self.old) }
    {
        let Packet {
            subtype,
            seqid,
            body,
        } = *packet;
        match body {
            Body::Vers { major, minor } => self.go(self.phase.take_vers(subtype, major, minor)),
            Body::Rts { mode } => self.go(self.phase.take_rts(subtype, mode)),
            Body::Rtr { mode } => self.go(self.phase.take_rtr(subtype, mode)),
            Body::Rdx => self.take_rdx(subtype, seqid),
            Body::Part {
                start,
                stop,
                len,
                bytes,
            } => {
                let head = PartHead {
                    seqid,
                    start,
                    stop,
                    len,
                };
                self.take_part(head, &bytes[..len as usize])
            }
        }
    }

    fn take_rdx(&mut self, subtype: Subtype, seqid: u32) -> Result<(), Cause>
        ensures exact { answer_of result self.new ≡ in_turn self.old seqid (goes_to self.old (phase_behind_rdx self.old.phase subtype)) }
        ensures unchanged { OnErr result (self.new ≡ self.old) }
    {
        self.check_number(seqid)?;
        self.go(self.phase.take_rdx(subtype))?;
        self.count_taken();
        Ok(())
    }

    fn take_part(&mut self, head: PartHead, bytes: &[u8]) -> Result<(), Cause>
        requires { self.old.whole ≡ None }
        ensures exact { answer_of result self.new
            ≡ in_turn self.old head.seqid (takes_part self.old
            (record { start = head.start; stop = head.stop; bytes = bytes.now })) }
        ensures unchanged { OnErr result (self.new ≡ self.old) }
    {
        self.check_number(head.seqid)?;
        self.hear(head.start, head.stop, bytes)?;
        self.count_taken();
        Ok(())
    }

    // The phase after a control packet that is taken.
    fn go(&mut self, behind: Result<LinkPhase, Cause>) -> Result<(), Cause>
        ensures exact { answer_of result self.new ≡ goes_to self.old behind }
        ensures unchanged { OnErr result (self.new ≡ self.old) }
    {
        self.phase = behind?;
        Ok(())
    }

    fn check_number(&self, seqid: u32) -> Result<(), Cause>
        ensures ok { OnOk result (seqid ≡ self.now.take_next) }
        ensures err { IfErr result (λ fault. (seqid ≢ self.now.take_next) × (fault ≡ cause.Gap self.now.take_next seqid)) }
    {
        if seqid != self.take_next {
            return Err(Cause::Gap {
                expected: self.take_next,
                found: seqid,
            });
        }
        Ok(())
    }

    fn count_taken(&mut self)
        ensures { self.new ≡ counted self.old }
    {
        self.take_next = self.take_next.wrapping_add(1);
    }

    // Adds a part to what was heard of a message.
    fn hear(&mut self, start: bool, stop: bool, bytes: &[u8]) -> Result<(), Cause>
        requires { self.old.whole ≡ None }
        ensures exact { answer_of result self.new ≡ takes_part self.old (record { start = start; stop = stop; bytes = bytes.now }) }
        ensures unchanged { OnErr result (self.new ≡ self.old) }
    {
        if !self.is_up() {
            return Err(Cause::Unexpected);
        }
        if start != self.heard.is_empty() {
            return Err(Cause::Fragment);
        }
        if self.heard.try_extend_from_slice(bytes).is_err() {
            return Err(Cause::Fragment);
        }
        self.whole = stop;
        Ok(())
    }
}
