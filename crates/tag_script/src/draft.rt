//! The statements of a block as far as it was read, and how one line more goes onto them.
//!
//! An `if` is open until a line comes that does not go on it, or `else` has ended it. While it is open, the names that count as
//! assigned are those that were assigned before it.
ghost use Rattle.std.specs.Prelude.{◌≡◌, ◌∷◌, [], IfOk};
ghost use Rattle.tag_script.specs.Blocks.{assigning, begun, closed, common, ended, gone_on, is_open, joined, new_block, with_place, with_statements};
ghost use Rattle.tag_script.specs.declared.script.Statement.TheVariants as s;

use crate::checks::Known;
use crate::script::{Arm, Statement};
use mcy_base::Items;
use std::alloc::{AllocError, Global};
use tag_lines::{Expr, Head, is_place};
use tree_parts::Listed;

/// Statements, and an `if` behind them where its arms are not empty.
#[derive(Drop)]
pub struct Draft {
    pub done: Listed<Statement>,
    /// The arms of the `if` that is open.
    pub arms: Listed<Arm>,
    /// The places of the names that each of these arms assigns.
    pub in_all: Items<usize>,
}

/// The statements of a block so far, and what is known behind them.
#[derive(Drop)]
pub struct Block {
    pub draft: Draft,
    pub known: Known,
}

/// No statements yet.
pub fn new_block(alloc: Global, known: Known) -> Block
    ensures { result ≡ new_block known }
{
    Block {
        draft: Draft {
            done: Listed::from_vec(Vec::new(alloc)),
            arms: Listed::from_vec(Vec::new(alloc)),
            in_all: Items::from_vec(Vec::new(alloc)),
        },
        known,
    }
}

/// Whether an `if` is open.
pub fn is_open(draft: &Draft) -> bool
    ensures { result ≡ is_open draft.now }
{
    match draft.arms.as_slice() {
        [] => false,
        [_, ..] => true,
    }
}

/// All statements.
pub fn closed(alloc: Global, draft: Draft) -> Result<Listed<Statement>, AllocError>
    ensures { IfOk result (λ all. all ≡ closed draft) }
{
    if !is_open(&draft) {
        return Ok(draft.done);
    }
    let mut done = draft.done;
    let other = Listed::from_vec(Vec::new(alloc));
    done.push(Statement::If(draft.arms, other))?;
    Ok(done)
}

/// The same places.
pub fn copied(alloc: Global, places: &[usize]) -> Result<Items<usize>, AllocError>
    ensures { IfOk result (λ all. all ≡ places.now) }
{
    Ok(Items::from_vec(places.to_vec(alloc)?))
}

/// The places that are among the others, too.
fn common(alloc: Global, places: &[usize], others: &[usize]) -> Result<Items<usize>, AllocError>
    ensures { IfOk result (λ all. all ≡ common places.now others.now) }
{
    Ok(Items::from_vec(
        places
            .iter()
            .copied()
            .filter(|place| is_place(others, *place))
            .collect(alloc)?,
    ))
}

/// The places with one more, each once.
fn with_place(mut places: Items<usize>, place: usize) -> Result<Items<usize>, AllocError>
    ensures { IfOk result (λ all. all ≡ with_place places place) }
{
    if !is_place(places.as_slice(), place) {
        places.push(place)?;
    }
    Ok(places)
}

/// A line behind which an `if` is not open.
fn without_statement(alloc: Global, draft: Draft, known: Known) -> Result<Block, AllocError>
    ensures { IfOk result (λ block. block ≡ with_statements draft [] known) }
{
    let done = closed(alloc, draft)?;
    let mut block = new_block(alloc, known);
    block.draft.done = done;
    Ok(block)
}

/// A statement of one line.
fn with_statement(
    alloc: Global,
    draft: Draft,
    statement: Statement,
    known: Known,
) -> Result<Block, AllocError>
    ensures { IfOk result (λ block. block ≡ with_statements draft (statement ∷ []) known) }
{
    let mut done = closed(alloc, draft)?;
    done.push(statement)?;
    let mut block = new_block(alloc, known);
    block.draft.done = done;
    Ok(block)
}

/// An assignment.
fn with_assignment(
    alloc: Global,
    draft: Draft,
    place: usize,
    value: Expr,
    known: Known,
) -> Result<Block, AllocError>
    ensures { IfOk result (λ block. block ≡ with_statements draft (s.Assign place value ∷ []) (assigning (with_place known.assigned place) known)) }
{
    let assigned = with_place(known.assigned, place)?;
    let known = Known {
        names: known.names,
        assigned,
    };
    with_statement(alloc, draft, Statement::Assign(place, value), known)
}

/// An arm with this body.
fn arm(alloc: Global, condition: Expr, draft: Draft) -> Result<Arm, AllocError>
    ensures { IfOk result (λ arm. arm ≡ record { condition = condition; body = closed draft }) }
{
    Ok(Arm {
        condition,
        body: closed(alloc, draft)?,
    })
}

/// An `if` begins with this arm, before which these names were assigned.
fn begun(
    alloc: Global,
    draft: Draft,
    before: Items<usize>,
    condition: Expr,
    inner: Block,
) -> Result<Block, AllocError>
    ensures { IfOk result (λ block. block ≡ begun draft before condition inner) }
{
    let done = closed(alloc, draft)?;
    let mut arms = Listed::from_vec(Vec::new(alloc));
    arms.push(arm(alloc, condition, inner.draft)?)?;
    Ok(Block {
        draft: Draft {
            done,
            arms,
            in_all: inner.known.assigned,
        },
        known: Known {
            names: inner.known.names,
            assigned: before,
        },
    })
}

/// An `if` goes on with this arm.
fn gone_on(
    alloc: Global,
    draft: Draft,
    before: Items<usize>,
    condition: Expr,
    inner: Block,
) -> Result<Block, AllocError>
    ensures { IfOk result (λ block. block ≡ gone_on draft before condition inner) }
{
    let in_all = common(
        alloc,
        draft.in_all.as_slice(),
        inner.known.assigned.as_slice(),
    )?;
    let mut arms = draft.arms;
    arms.push(arm(alloc, condition, inner.draft)?)?;
    Ok(Block {
        draft: Draft {
            done: draft.done,
            arms,
            in_all,
        },
        known: Known {
            names: inner.known.names,
            assigned: before,
        },
    })
}

/// An `if` ends with these statements in place of its arms.
fn ended(alloc: Global, draft: Draft, inner: Block) -> Result<Block, AllocError>
    ensures { IfOk result (λ block. block ≡ ended draft inner) }
{
    let assigned = common(
        alloc,
        draft.in_all.as_slice(),
        inner.known.assigned.as_slice(),
    )?;
    let mut done = draft.done;
    done.push(Statement::If(draft.arms, closed(alloc, inner.draft)?))?;
    let known = Known {
        names: inner.known.names,
        assigned,
    };
    let mut block = new_block(alloc, known);
    block.draft.done = done;
    Ok(block)
}

/// A block with what a line says that has this body, where these names were assigned before it.
#[tactic(auto, unfolding(crate::specs::Blocks::joined))]
pub fn joined(
    alloc: Global,
    draft: Draft,
    before: Items<usize>,
    number: u32,
    said: Head,
    inner: Block,
) -> Result<Block, AllocError>
    ensures { IfOk result (λ block. block ≡ joined draft before number said inner) }
{
    match said {
        Head::If(condition) => begun(alloc, draft, before, condition, inner),
        Head::Elif(condition) => gone_on(alloc, draft, before, condition, inner),
        Head::Else => ended(alloc, draft, inner),
        Head::Assign(place, value) => with_assignment(alloc, draft, place, value, inner.known),
        Head::Tag(tag) => with_statement(alloc, draft, Statement::Tag(tag), inner.known),
        Head::Assert(condition) => with_statement(
            alloc,
            draft,
            Statement::Assert(number, condition),
            inner.known,
        ),
        Head::Pass => without_statement(alloc, draft, inner.known),
    }
}
