//! The objects that a call is given.
use mcy_keeper::MemoryKeeper;
use mcy_outside::{MemoryFiles, MemorySink};

/// Files, a keeper and a sink.
pub struct World {
    pub files: MemoryFiles,
    pub keeper: MemoryKeeper,
    pub out: MemorySink,
}

impl Drop for World {
    fn drop(self) {
        let World {
            files: _files,
            keeper: _keeper,
            out: _out,
        } = self;
    }
}
