//! The commands.

/// What a command does.
#[derive(Clone, Copy, Debug, PartialEq, Eq)]
pub enum Command {
    /// Begin a campaign.
    Init,
    /// Run the tests that are not run yet, and write the status.
    Run {
        /// How many tests may be under way at once, from 1 to 64.
        jobs: u32,
        /// The most rows that this call adds, from 1 to 1,000,000; without a number, all.
        stop_after: Option<u32>,
        /// The limit under which tests are asked again that were given up under less, a round number from 1 to 100,000; without
        /// one, none is.
        retry: Option<u32>,
    },
    /// Write the list of the mutations.
    List,
    /// Write the status.
    Status {
        /// Whether a failed assertion or an unexpected word counts as a missed requirement.
        strict: bool,
    },
    /// Write the design's files, with the counts of each line's mutations.
    Source,
    /// Give each bench the design itself, and write what it says.
    Baseline,
    /// Make a project from two numbers, run it whole, and write a summary of it.
    Demo {
        /// The number from which the project's texts are drawn, of one to ten digits.
        seed: u64,
        /// How many cells stand in its design, from 1 to 400.
        cells: u32,
    },
}
