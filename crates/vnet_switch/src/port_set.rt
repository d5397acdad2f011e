// Sets of ports as numbers: the port k is in the set where bit k is set.

ghost use Rattle.std.specs.Prelude.{◌<◌, ◌↔◌, IsBitSet, IsTrue};
ghost use Rattle.vnet_switch.specs.PortSet.{WithPort, WithPortIf};

/// The set with the port.
pub(crate) fn with_port(set: u32, port: u32) -> u32
    requires { port < 32 }
    ensures { WithPort set port result }
{
    set | 1 << port
}

/// The same where the port belongs to it, else the set as it is.
pub(crate) fn with_port_if(set: u32, port: u32, belongs: bool) -> u32
    requires { port < 32 }
    ensures { WithPortIf belongs set port result }
{
    if belongs { with_port(set, port) } else { set }
}

/// Whether the port is in the set.
pub(crate) fn has_port(set: u32, port: u32) -> bool
    requires { port < 32 }
    ensures { IsTrue result ↔ IsBitSet set port }
{
    set >> port & 1 == 1
}
