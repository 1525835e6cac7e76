//! The tokens that a file gives, and how many more there may be.
ghost use Rattle.std.specs.Prelude.{◌≡◌, ◌<◌, ◌-◌, [], IfErr, OnOk};
ghost use Rattle.vlog_expand.specs.Definitions.{definitions_of};
ghost use Rattle.vlog_expand.specs.Uses.{Gives, IsRefusal, behind, expanded, token_given};

use crate::error::ParseError;
use crate::macros::Macros;
use crate::word::{is_use, name_of};
use mcy_base::Kind;
use std::alloc::Global;
use vlog_syntax::Feature;
use vlog_token::Token;

/// How deep a use may stand in others.
pub const MAX_DEPTH: u32 = 16;

/// The tokens given so far, and how many more tokens and uses of macros there may be.
#[derive(Drop)]
pub struct Output<'a> {
    pub given: Vec<Token<'a>>,
    pub left: u32,
}

impl<'a> Output<'a> {
    /// Nothing is given yet.
    pub fn new(alloc: Global, limit: u32) -> Output<'a>
        ensures given { result.given.items ≡ [] }
        ensures left { result.left ≡ limit }
    {
        Output {
            given: Vec::new(alloc),
            left: limit,
        }
    }

    /// Counts a token or a use.
    fn count(&mut self) -> Result<(), ParseError>
        ensures ok { OnOk result (self.new ≡ record self.old { left = self.old.left - 1 }) }
        ensures ok_some { OnOk result (0 < self.old.left) }
        ensures err { IfErr result (λ e. (self.old.left ≡ 0) × (e ≡ ParseError.TooMany Kind.Tokens)) }
    {
        self.left = self
            .left
            .checked_sub(1)
            .ok_or(ParseError::TooMany(Kind::Tokens))?;
        Ok(())
    }

    /// Gives a token.
    fn give(&mut self, token: &Token<'a>) -> Result<(), ParseError>
        ensures ok { OnOk result (behind self.old.given.items (token_given token.now self.old.left) ≡ Gives self.new.given.items self.new.left) }
        ensures err { IfErr result (IsRefusal (token_given token.now self.old.left)) }
    {
        self.count()?;
        self.given
            .push(*token)
            .map_err(std::alloc::AllocError::from)?;
        Ok(())
    }

    /// Gives a token, or what the use of a macro stands for, where uses may stand `depth` deep.
    pub fn add(
        &mut self,
        macros: &Macros<'_, 'a>,
        depth: u32,
        token: &Token<'a>,
    ) -> Result<(), ParseError>
        ensures ok { OnOk result (behind self.old.given.items (expanded depth (definitions_of macros.now) token.now self.old.left) ≡ Gives self.new.given.items self.new.left) }
        ensures err { IfErr result (IsRefusal (expanded depth (definitions_of macros.now) token.now self.old.left)) }
    {
        if !is_use(token) {
            return self.give(token);
        }
        if depth == 0 {
            return Err(ParseError::Unsupported(token.span, Feature::MacroDepth));
        }
        match macros.text(name_of(token)) {
            None => Err(ParseError::UnknownMacro(token.span)),
            Some(text) => {
                self.count()?;
                for inner in text {
                    self.add(macros, depth - 1, inner)?;
                }
                Ok(())
            }
        }
    }
}
