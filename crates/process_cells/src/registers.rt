//! Registers of variables, with their names, places and start values.
ghost use Rattle.std.specs.Prelude.{◌≡◌, ◌<◌, length, IfOk, OnOk};
ghost use Rattle.net_builder.specs.Building.{declared_at};
ghost use Rattle.process_cells.specs.Processes.{CanStore, CanStoreAll, StoresOne, Stores};

use mcy_base::Text;
use net_builder::{Builder, copied_bits};
use proc_muxes::Choice;
use std::alloc::AllocError;

/// The name of a signal.
fn name_of(builder: &Builder, number: u32) -> Result<Text, AllocError>
    requires { number < length builder.now.signals }
    ensures { IfOk result (λ name. name ≡ (declared_at builder.now number).name) }
{
    let count = builder.signal_count();
    prove!(number < count);
    Text::copy(builder.alloc(), builder.name(number))
}

/// Adds the register of a variable, which takes these bits.
fn store(builder: &mut Builder, variable: &Choice) -> Result<(), AllocError>
    requires { CanStore builder.old variable.now }
    ensures { OnOk result (StoresOne builder.old variable.now builder.new) }
{
    let number = variable.number;
    let count = builder.signal_count();
    prove!(number < count);
    let name = name_of(builder, number)?;
    let span = builder.span(number);
    let d = copied_bits(builder.alloc(), variable.bits.as_slice())?;
    let q = copied_bits(builder.alloc(), builder.bits(number))?;
    let start = builder.start(number);
    builder.register(name.as_str(), span, d, q, start)?;
    Ok(())
}

/// Adds the registers of variables, in order, which take these bits.
pub(crate) fn store_all(builder: &mut Builder, variables: &[Choice]) -> Result<(), AllocError>
    requires { CanStoreAll builder.old variables.now }
    ensures { OnOk result (Stores builder.old variables.now builder.new) }
{
    for variable in variables {
        store(builder, variable)?;
    }
    Ok(())
}
