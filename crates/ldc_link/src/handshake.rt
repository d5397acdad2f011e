// The steps of a link's handshake.

ghost use Rattle.std.specs.Prelude.{◌≡◌, ◌≢◌, IfErr, OnOk};
ghost use Rattle.ldc_link.specs.LinkState.{first_phase};
ghost use Rattle.ldc_link.specs.Putting.{owes_in, phase_behind_put};
ghost use Rattle.vio_tag.specs.declared.cause.Cause.TheVariants as cause;
ghost use Rattle.ldc_link.specs.Taking.{answer_to, in_mode, phase_behind_rdx, phase_behind_rtr, phase_behind_rts, phase_behind_vers};

use crate::phase::{LinkPhase, Role};
use ldc_packet::Subtype;
use vio_tag::Cause;

/// The only version of this profile.
pub(crate) const MAJOR: u16 = 1;

pub(crate) const MINOR: u16 = 0;

/// The only mode of this profile: UNRELIABLE.
pub(crate) const MODE: u8 = 1;

/// Where a handshake begins.
pub(crate) fn first_phase(role: Role) -> LinkPhase
    ensures { result ≡ first_phase role }
{
    match role {
        Role::Initiator => LinkPhase::OwesVersInfo,
        Role::Responder => LinkPhase::AwaitsVersInfo,
    }
}

impl LinkPhase {
    /// The phase after a version that was offered or answered.
    pub(crate) fn take_vers(
        self,
        subtype: Subtype,
        major: u16,
        minor: u16,
    ) -> Result<LinkPhase, Cause>
        ensures { result ≡ phase_behind_vers self subtype major minor }
    {
        match (self, subtype) {
            (LinkPhase::AwaitsVersInfo, Subtype::Info) => Ok(answer_to(major)),
            (LinkPhase::AwaitsVersAck, Subtype::Ack) if major == MAJOR && minor == MINOR => {
                Ok(LinkPhase::OwesRts)
            }
            (LinkPhase::AwaitsVersAck, Subtype::Ack | Subtype::Nack) => Err(Cause::Version),
            _ => Err(Cause::Unexpected),
        }
    }

    /// The phase after RTS.
    pub(crate) fn take_rts(self, subtype: Subtype, mode: u8) -> Result<LinkPhase, Cause>
        ensures { result ≡ in_mode mode (phase_behind_rts self subtype) }
    {
        check_mode(mode)?;
        match (self, subtype) {
            (LinkPhase::AwaitsRts, Subtype::Info) => Ok(LinkPhase::OwesRtr),
            _ => Err(Cause::Unexpected),
        }
    }

    /// The phase after RTR.
    pub(crate) fn take_rtr(self, subtype: Subtype, mode: u8) -> Result<LinkPhase, Cause>
        ensures { result ≡ in_mode mode (phase_behind_rtr self subtype) }
    {
        check_mode(mode)?;
        match (self, subtype) {
            (LinkPhase::AwaitsRtr, Subtype::Info) => Ok(LinkPhase::OwesRdx),
            _ => Err(Cause::Unexpected),
        }
    }

    /// The phase after RDX.
    pub(crate) fn take_rdx(self, subtype: Subtype) -> Result<LinkPhase, Cause>
        ensures { result ≡ phase_behind_rdx self subtype }
    {
        match (self, subtype) {
            (LinkPhase::AwaitsRdx, Subtype::Info) => Ok(LinkPhase::Established),
            _ => Err(Cause::Unexpected),
        }
    }

    /// The phase after putting the packet that is owed.
    pub(crate) fn put(self) -> LinkPhase
        ensures { result ≡ phase_behind_put self }
    {
        match self {
            LinkPhase::OwesVersInfo => LinkPhase::AwaitsVersAck,
            LinkPhase::OwesRts => LinkPhase::AwaitsRtr,
            LinkPhase::OwesRdx => LinkPhase::Established,
            LinkPhase::OwesVersAck => LinkPhase::AwaitsRts,
            LinkPhase::OwesVersNack { .. } => LinkPhase::AwaitsVersInfo,
            LinkPhase::OwesRtr => LinkPhase::AwaitsRdx,
            other => other,
        }
    }

    /// Whether a packet of the handshake is owed.
    pub(crate) fn owes(self) -> bool
        ensures { result ≡ owes_in self }
    {
        match self {
            LinkPhase::OwesVersInfo
            | LinkPhase::OwesRts
            | LinkPhase::OwesRdx
            | LinkPhase::OwesVersAck
            | LinkPhase::OwesVersNack { .. }
            | LinkPhase::OwesRtr => true,
            _ => false,
        }
    }
}

// What a responder owes for a version that was offered: minor versions don't count.
fn answer_to(major: u16) -> LinkPhase
    ensures { result ≡ answer_to major }
{
    match major {
        MAJOR => LinkPhase::OwesVersAck,
        0 => LinkPhase::OwesVersNack { major: 0 },
        _ => LinkPhase::OwesVersNack { major: MAJOR },
    }
}

fn check_mode(mode: u8) -> Result<(), Cause>
    ensures ok { OnOk result (mode ≡ 1) }
    ensures err { IfErr result (λ cause. (mode ≢ 1) × (cause ≡ Cause.Mode mode)) }
{
    if mode == MODE {
        Ok(())
    } else {
        Err(Cause::Mode { found: mode })
    }
}
