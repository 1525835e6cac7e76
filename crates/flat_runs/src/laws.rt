//! The laws of netlists that are built item by item.
ghost use Rattle.flat_runs.specs.Laws.{BuiltRuns, ReadyFinishes, AssignsAdd, CombinationalAdd, ClockedAdd, ItemFollows, CellsExtend, JointsStandBelow, VariablesStandBelow, DeclaredOwnNets, EmptyBegins, OwnNetsStay, RegistersStandBelow, DeclaredStandBelow, StartsStandBelow, NothingIsWritten, OneWriterStays, OneWriterStarts, RegistersOfItems};

/// A netlist that is built item by item from a design and finished has the design's runs.
pub fn built_netlists_have_the_source_runs()
    ensures { BuiltRuns }
{}

/// What `finish` makes of a builder whose ports and start values are a design's, and in which each bit has one writer at most,
/// is a finished netlist of that design where its registers are put in the design's order.
pub fn ready_builders_finish()
    ensures { ReadyFinishes }
{}

/// An item is added by the cells of its values, and then by the joints of its left side or variables, or by a register
/// for each variable.
pub fn items_are_added()
    ensures assigns { AssignsAdd }
    ensures combinational { CombinationalAdd }
    ensures clocked { ClockedAdd }
    ensures follows { ItemFollows }
{}

/// What a builder's calls keep from item to item: cells extend each run, and what was added stands below the next net.
pub fn builders_keep()
    ensures empty { EmptyBegins }
    ensures signals { DeclaredOwnNets }
    ensures own_nets { OwnNetsStay }
    ensures cells { CellsExtend }
    ensures joints { JointsStandBelow }
    ensures variables { VariablesStandBelow }
    ensures registers { RegistersStandBelow }
    ensures declared { DeclaredStandBelow }
    ensures starts { StartsStandBelow }
{}

/// Each bit has one writer at most, from item to item, where none of an item's bits is written before; and the registers are
/// those of the items' variables.
pub fn bits_have_one_writer()
    ensures nothing { NothingIsWritten }
    ensures stays { OneWriterStays }
    ensures starts { OneWriterStarts }
    ensures registers { RegistersOfItems }
{}
