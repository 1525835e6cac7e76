//! Names of instances within the design, and what stands within them, by names.
ghost use Rattle.std.specs.Prelude.{◌≡◌};
ghost use Rattle.std.specs.List.{list_all};
ghost use Rattle.project_options.specs.Instances.{is_inner_byte, is_inner_name, is_instance, is_within, is_within_some};

use mcy_base::Text;
use project_lines::{is_name_byte, is_name_start};

/// A byte of a name, `$`, or a byte of an index in brackets.
#[tactic(auto, unfolding(crate::specs::Instances::is_inner_byte))]
fn is_inner_byte(byte: u8) -> bool
    ensures { result ≡ is_inner_byte byte }
{
    is_name_byte(byte) || byte == b'$' || byte == b'-' || byte == b'[' || byte == b']'
}

fn are_inner_bytes(bytes: &[u8]) -> bool
    ensures { result ≡ list_all is_inner_byte bytes.now }
{
    bytes.iter().all(|byte| is_inner_byte(*byte))
}

/// Whether the word may be the name of an instance, or of a generate block.
#[tactic(auto, unfolding(crate::specs::Instances::is_inner_name))]
fn is_inner_name(word: &str) -> bool
    ensures { result ≡ is_inner_name word.now }
{
    match word.as_bytes() {
        [first, rest @ ..] => is_name_start(*first) && are_inner_bytes(rest),
        [] => false,
    }
}

/// Whether the word is such names with a `.` between them.
#[tactic(auto, unfolding(crate::specs::Instances::is_instance))]
pub fn is_instance(word: &str) -> bool
    ensures { result ≡ is_instance word.now }
{
    word.split('.').all(|name| is_inner_name(name))
}

/// Whether a name, or what stands before the names of a scope, begins with the name of an instance and a `.`.
fn is_within(instance: &str, name: &str) -> bool
    ensures { result ≡ is_within instance.now name.now }
{
    let (instance, name) = (instance.as_bytes(), name.as_bytes());
    match name.get(instance.len()) {
        Some(byte) => name.starts_with(instance) && *byte == b'.',
        None => false,
    }
}

/// Whether it is within one of these instances.
pub fn is_within_some(instances: &[Text], name: &str) -> bool
    ensures { result ≡ is_within_some instances.now name.now }
{
    instances
        .iter()
        .any(|instance| is_within(instance.as_str(), name))
}
