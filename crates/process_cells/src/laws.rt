//! Laws of processes.
ghost use Rattle.process_cells.specs.Laws.{AcceptedAreReady, AcceptedAreSound, MixedAreRefused, AcceptedCanBeBuilt, CombinationalAreAdded, ClockedAreAdded, ProcessesAreLaid};

/// A statement in which nothing is refused can be built, where the builder has the signals of the scope.
pub fn accepted_statements_are_ready()
    ensures { AcceptedAreReady }
{}

/// Statements in which nothing is refused are those that latches are looked for in.
pub fn accepted_statements_are_sound()
    ensures { AcceptedAreSound }
{}

/// In a process in which no second kind of assignment is refused each variable has assignments of one kind.
pub fn mixed_assignments_are_refused()
    ensures { MixedAreRefused }
{}

/// The body of a process in which nothing is refused can be built: nothing is refused in its statements, each variable has
/// assignments of one kind, and a combinational one has no latch.
pub fn accepted_bodies_can_be_built()
    ensures { AcceptedCanBeBuilt }
{}

/// A process is added by the cells of its statements, and then by the joints of its variables, which a combinational one
/// without a latch has, or by their registers, where a clocked one has one kind of assignments of each.
pub fn processes_are_added()
    ensures combinational { CombinationalAreAdded }
    ensures clocked { ClockedAreAdded }
{}

/// What is added of a process are the cells that it lays, wired as these are, and the joints or registers of its variables.
pub fn processes_are_laid()
    ensures { ProcessesAreLaid }
{}
