//! Places: the scopes of a design after flattening, by their numbers.
use flat_scopes::OwnNames;
use mcy_base::Text;
use vlog_meaning::Scope;

/// A scope of a design: what stands before its names, what all names are declared as in it, which it declares itself, the scope
/// around it where it is a generate block, and the numbers of the modules around, from the innermost on.
#[derive(Drop)]
pub struct Place {
    pub prefix: Text,
    pub scope: Scope,
    pub own: OwnNames,
    pub around: Option<u32>,
    pub within: Vec<usize>,
}
