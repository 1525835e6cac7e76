//! Which module is the testbench of a test: the one of its name in its files.
ghost use Rattle.std.specs.Prelude.{◌≡◌, ◌&&◌, ◌++◌, ◌∷◌, [], nat_eq, List};
ghost use Rattle.std.specs.List.{list_any};
ghost use Rattle.std.specs.Str.{bytes_eq};
ghost use Rattle.vlog_syntax.specs.declared.module.Module.{Module as Tree};
ghost use Rattle.project_benches.specs.Choice.{stands_in, is_bench, benches_in, IsFound};

use mcy_base::Span;
use vlog_syntax::Module;

/// What the files of a test hold: no module of its name, one, or a second one, with the place of its name.
#[derive(Clone, Copy)]
pub enum Found<'a> {
    Nothing,
    One(&'a Module),
    Twice(Span),
}

/// Whether a place is in one of the files with these numbers.
fn stands_in(numbers: &[u32], at: Span) -> bool
    ensures { result ≡ stands_in numbers.now at }
{
    numbers.iter().any(|number| *number == u32::from(at.file))
}

/// Whether a module has this name and stands in one of these files.
fn is_bench(numbers: &[u32], name: &str, tree: &Module) -> bool
    ensures { result ≡ is_bench numbers.now name.now tree.now }
{
    stands_in(numbers, tree.span) && name == tree.name.as_str()
}

/// What there is with one module more.
fn with<'a>(found: Found<'a>, tree: &'a Module) -> Found<'a>
    ensures { (modules : List Tree) → IsFound modules found.entry → IsFound (modules ++ tree.now ∷ []) result }
{
    match found {
        Found::Nothing => Found::One(tree),
        Found::One(_) => Found::Twice(tree.span),
        Found::Twice(at) => Found::Twice(at),
    }
}

/// The module of this name in the files with these numbers.
pub fn find_bench<'a>(numbers: &[u32], name: &str, modules: &'a [Module]) -> Found<'a>
    ensures { IsFound (benches_in numbers.now name.now modules.now) result }
{
    let mut found = Found::Nothing;
    for module in modules {
        if is_bench(numbers, name, module) {
            found = with(found, module);
        }
    }
    found
}
