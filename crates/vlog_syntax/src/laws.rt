//! Laws of the definitions: what nests one deeper than its parts, and what does not.
ghost use Rattle.std.specs.Prelude.{◌≡◌, ◌+◌, max, List, [], ◌∷◌, map, None};
ghost use Rattle.mcy_base.specs.declared.span.Span.{Span};
ghost use Rattle.vlog_syntax.specs.declared.identifier.Identifier.{Identifier};
ghost use Rattle.vlog_syntax.specs.declared.operator.BinaryOperator.{BinaryOperator};
ghost use Rattle.vlog_syntax.specs.declared.expr.Expr.{Expr};
ghost use Rattle.vlog_syntax.specs.declared.expr.Expr.TheVariants as exprs;
ghost use Rattle.vlog_syntax.specs.declared.stmt.Stmt.{Stmt};
ghost use Rattle.vlog_syntax.specs.declared.stmt.Stmt.TheVariants as statements;
ghost use Rattle.vlog_syntax.specs.declared.item.Item.{Item};
ghost use Rattle.vlog_syntax.specs.declared.item.Item.TheVariants as items;
ghost use Rattle.vlog_syntax.specs.Nesting.{expr_nest, stmt_nest, item_nest, greatest};

/// An operator, a call with arguments and a block nest one deeper than their parts; `$name`, and `;` as the block of a
/// condition, do not.
pub fn nesting()
    ensures operator { (at : Span) (op : BinaryOperator) (x y : Expr) → expr_nest (exprs.Binary at op x y) ≡ max (expr_nest x) (expr_nest y) + 1 }
    ensures call { (n : Identifier) (x : Expr) (more : List Expr) → expr_nest (exprs.SystemFunctionCall n (x ∷ more)) ≡ greatest (map expr_nest (x ∷ more)) + 1 }
    ensures no_arguments { (n : Identifier) → expr_nest (exprs.SystemFunctionCall n []) ≡ 0 }
    ensures block { (at : Span) (body : List Stmt) → stmt_nest (statements.SeqBlock at None body) ≡ greatest (map stmt_nest body) + 1 }
    ensures no_block { (at : Span) (x : Expr) → item_nest (items.IfGenerate at x (items.NullGenerate at) None) ≡ expr_nest x }
{}
