//! The names of a scope of the design, by its number.
ghost use Rattle.std.specs.Prelude.{◌≡◌, option_map, slice_get, IfSome, Some};
ghost use Rattle.vlog_meaning.specs.Scopes.{names_of};
ghost use Rattle.flat_items.specs.Views.{flat_of};

use crate::flat::Flat;
use vlog_meaning::Scope;

impl<'a> Flat<'a> {
    /// What names are declared as in the scope of this number.
    pub fn scope(&self, number: u32) -> Option<&Scope>
        ensures { IfSome result (λ scope. option_map (λ p. p.names) (slice_get (flat_of self.now).places number) ≡ Some (names_of scope.now)) }
    {
        match self.place(number) {
            Some(place) => Some(&place.scope),
            None => None,
        }
    }
}
