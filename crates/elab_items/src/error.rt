//! Why a flattened design is not built.
ghost use Rattle.std.specs.Prelude.{◌≡◌};
ghost use Rattle.elab_items.specs.declared.error.BuildError.TheVariants.{Memory};

use elab_proc::Refusal;
use flat_instances::ItemError;
use mcy_base::Kind;
use std::alloc::AllocError;
use vlog_meaning::ConstError;

/// Why an item is refused.
#[derive(Clone, Copy, Debug, PartialEq, Eq)]
pub enum Reason {
    /// It is listed as a refusal.
    Listed(ItemError),
    /// What is refused in an assignment, a connection or a process.
    Found(Refusal),
    /// A start value is no constant.
    Start(ConstError),
}

/// Why a flattened design is not built.
#[derive(Clone, Copy, Debug, PartialEq, Eq)]
pub enum BuildError {
    /// An item is refused.
    Refused(Reason),
    /// There would be more than the limit.
    TooMany(Kind),
    /// There is no memory for it.
    Memory,
}

impl From<AllocError> for BuildError {
    ghost from_gives = { λ _ e. e ≡ Memory };

    fn from(_error: AllocError) -> Self {
        BuildError::Memory
    }
}
