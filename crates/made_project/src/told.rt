//! The summary of a campaign on the made project.
ghost use Rattle.std.specs.Prelude.{◌≡◌, IfOk};
ghost use Rattle.made_project.specs.Summaries.{summary_text};

use mcy_base::Bytes;
use std::alloc::{AllocError, Global};

/// The two numbers, how many sites the design has, and the text of the status.
pub fn summary(
    alloc: Global,
    seed: u64,
    cells: u32,
    sites: usize,
    status: &[u8],
) -> Result<Bytes, AllocError>
    ensures { IfOk result (λ text. text ≡ summary_text seed cells sites status.now) }
{
    let head = format!(in alloc; "Demo: {seed} {cells}\nSites: {sites}\n")?;
    let mut text = head.into_bytes();
    text.extend_from_slice(status)?;
    Ok(Bytes::from_vec(text))
}
