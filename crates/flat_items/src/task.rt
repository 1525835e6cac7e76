//! Parts of a design that are still to be replaced by what they stand for.
use flat_instances::ItemError;
use flat_scopes::{Lent, Placing, Step};
use mcy_base::Text;
use vlog_syntax::{Boxed, GenerateLoop, Identifier, Item};

/// A turn of a loop.
#[derive(Drop)]
pub struct Turn<'a> {
    /// The name of the loop's block.
    pub name: Text,
    pub head: Lent<'a, GenerateLoop>,
    pub body: Boxed<Lent<'a, Item>>,
    /// How many turns came before.
    pub count: u32,
    /// The value of the loop's variable, in two's complement.
    pub value: u32,
    /// The label of the loop's block, where it stands already and is not told yet.
    pub taken: Option<Lent<'a, Identifier>>,
}

/// A part of a design, with the number of the scope in which it stands.
#[derive(Drop)]
pub enum Task<'a> {
    /// What an item of the scope lists.
    Step(u32, Step<'a>),
    Instance(u32, Placing<'a>),
    /// A generate construct, which of its scope it is, and a label of its blocks that stands already and is not told yet.
    Generates(u32, u32, Boxed<Lent<'a, Item>>, Option<Lent<'a, Identifier>>),
    /// What a condition chose, which construct of its scope the condition belongs to, and a label of its blocks as above.
    Arm(u32, u32, Boxed<Lent<'a, Item>>, Option<Lent<'a, Identifier>>),
    Turn(u32, Turn<'a>),
    /// The design is refused here.
    Refuses(ItemError),
}
