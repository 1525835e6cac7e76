//! The top of a design, and what names stand for in its scopes.
ghost use Rattle.std.specs.Prelude.{◌≡◌, None, IfNone, IfSome};
ghost use Rattle.flat_items.specs.Flattened.{module_at as number_of};
ghost use Rattle.flat_items.specs.Tops.{IsTop, own_at};
ghost use Rattle.flat_items.specs.Views.{flat_of};

use crate::flat::Flat;
use crate::placing::module_at;
use flat_scopes::What;
use vlog_syntax::Module;

/// The first module of this name.
#[tactic(auto, using(crate::proofs::Tops::top_found))]
pub fn top_of<'a>(modules: &'a [Module], name: &str) -> Option<&'a Module>
    ensures found { IfSome result (λ m. IsTop modules.now name.now m.now) }
    ensures none { IfNone result (number_of modules.now name.now ≡ None) }
{
    match module_at(modules, name) {
        Some(number) => match modules.get(number) {
            Some(found) => Some(found),
            None => None,
        },
        None => None,
    }
}

impl<'a> Flat<'a> {
    /// What a name stands for that the scope of this number declares itself.
    #[tactic(auto, using(crate::proofs::Tops::own_found, crate::proofs::Tops::own_none))]
    pub fn own(&self, number: u32, name: &str) -> Option<What>
        ensures { result ≡ own_at (flat_of self.now).places number name.now }
    {
        match self.places.get(number as usize) {
            Some(place) => place.own.get(name),
            None => None,
        }
    }
}
