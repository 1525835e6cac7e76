//! What follows from the contract of the call on a file, as the contract of a function that does nothing.
ghost use Rattle.file_calls.specs.Turns.{CallsOnFilesAreCalls, CallsOnFilesAreSafe, EmptyFilesAreBlank};

use mcy_keeper::Keeper;

/// Over every list of calls on files, of which the first is empty or has a good book of the first format, each of which ended by itself
/// or was cut off at any moment, and in whose next contents nothing is found but what the call before may have left: they are calls of
/// one history, with all that `calls_are_a_history` of `mcy_top` says, and each begins on a file in which an empty or a good book is found.
///
/// `call_on_file` says that a call leaves before its first load what is found in the file, and `close_keeper` of `keeper_file` that
/// whatever a crash leaves of the files after an ended call, nothing is found in it but what the call left.
pub fn calls_on_files_are_a_history<K: Keeper>(_keeper: &K)
    ensures calls { CallsOnFilesAreCalls K.holds K.leaves }
    ensures safe { CallsOnFilesAreSafe K.tells K.holds K.leaves }
    ensures blank { EmptyFilesAreBlank }
{}
