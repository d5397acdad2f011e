// The handshake of a link: what its two roles put and take in which order.

/// Which end begins the handshake.
#[derive(Clone, Copy, Debug, PartialEq, Eq)]
pub enum Role {
    /// It offers a version.
    Initiator,
    /// It answers.
    Responder,
}

/// Where the handshake of a link stands, as its packet that is owed or awaited says: VERS, RTS, RTR and RDX of the LDC chapter of the
/// UltraSPARC Virtual Machine Specification.
#[derive(Clone, Copy, Debug, PartialEq, Eq)]
pub enum LinkPhase {
    /// The initiator is to offer version 1.0.
    OwesVersInfo,
    AwaitsVersAck,
    OwesRts,
    AwaitsRtr,
    /// It is up once RDX is put.
    OwesRdx,

    /// The responder waits for a version.
    AwaitsVersInfo,
    OwesVersAck,
    /// It offers `major`.0 in place of what it refuses, and then waits for a version again.
    OwesVersNack { major: u16 },
    AwaitsRts,
    OwesRtr,
    /// It is up once RDX is taken.
    AwaitsRdx,

    /// The link is up at this end: messages pass.
    Established,
}
