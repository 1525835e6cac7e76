//! The laws of flattened designs.
ghost use Rattle.flat_laws.specs.Laws.{FlattenedAreSound, TopHasPorts};

/// A flattened design is sound: each signal has from 1 to 128 bits and is declared by one item, names are those of signals with
/// the same bits, and items speak of signals and scopes that there are.
pub fn flattened_designs_are_sound()
    ensures { FlattenedAreSound }
{}

/// Where nothing is refused in a flattened design, each name in the head of its top is a port: a signal of the first scope that is
/// an input or an output.
pub fn tops_have_their_ports()
    ensures { TopHasPorts }
{}
