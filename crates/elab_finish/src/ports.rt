//! The ports of a netlist, by the numbers of their signals.
ghost use Rattle.std.specs.Prelude.{◌≡◌, ◌<◌, length, map, IfOk};
ghost use Rattle.net_builder.specs.Building.{declared_at};
ghost use Rattle.elab_finish.specs.Endings.{AreKnown, port_of};

use mcy_base::Text;
use net_builder::{Builder, copied_bits};
use netlist_core::Port;
use std::alloc::AllocError;

/// The name of a signal.
pub(crate) fn name_of(builder: &Builder, number: u32) -> Result<Text, AllocError>
    requires { number < length builder.now.signals }
    ensures { IfOk result (λ name. name ≡ (declared_at builder.now number).name) }
{
    let count = builder.signal_count();
    prove!(number < count);
    Text::copy(builder.alloc(), builder.name(number))
}

/// The port of a signal.
fn port(builder: &Builder, number: u32) -> Result<Port, AllocError>
    requires { number < length builder.now.signals }
    ensures { IfOk result (λ p. p ≡ port_of builder.now number) }
{
    let name = name_of(builder, number)?;
    let bits = copied_bits(builder.alloc(), builder.bits(number))?;
    Ok(Port { name, bits })
}

/// The ports of signals, in order.
pub(crate) fn ports(builder: &Builder, numbers: &[u32]) -> Result<Vec<Port>, AllocError>
    requires { AreKnown builder.now numbers.now }
    ensures { IfOk result (λ p. p.items ≡ map (port_of builder.now) numbers.now) }
{
    let mut found = Vec::new(builder.alloc());
    for number in numbers {
        found.push(port(builder, *number)?)?;
    }
    Ok(found)
}
