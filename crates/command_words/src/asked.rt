//! What the words ask for.
ghost use Rattle.std.specs.Prelude.{◌≡◌};
ghost use Rattle.command_words.specs.Commands.{plainly};

use crate::command::Command;
use mcy_base::Items;
use std::alloc::Global;

/// Numbers of mutations, as the list counts them, from 1.
pub type MutationNumbers = Items<u32>;

/// A command, and the mutations that a run is to look at.
#[derive(Drop)]
pub struct Asked {
    pub command: Command,
    /// The mutations that `--mutations` names; where it stands not, there are none here and the run looks at all.
    pub mutations: MutationNumbers,
}

impl Asked {
    /// A command that looks at no mutations of its own.
    pub(crate) fn plainly(alloc: Global, command: Command) -> Asked
        ensures { result ≡ plainly command }
    {
        Asked {
            command,
            mutations: MutationNumbers::from_vec(Vec::new(alloc)),
        }
    }
}
