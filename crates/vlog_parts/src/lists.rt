//! Lists of parts that have one item or more.
ghost use Rattle.std.specs.Prelude.{◌≡◌, ◌∷◌, true, IfOk};
ghost use Rattle.vlog_parts.specs.Sorts.{is_argument, is_assignment, is_case_item, is_connection, is_declared, is_event, is_expr, is_identifier, is_instance, is_item, is_left, is_parameter, is_stmt};
ghost use Rattle.vlog_parts.specs.Numbered.{first, second};
ghost use Rattle.vlog_parts.specs.Values.{argument_of, arguments_of, assignment_of, assignments_of, case_item_of, case_items_of, connection_of, connections_of, declared_of, declareds_of, event_of, events_of, expr_of, exprs_of, identifier_of, identifiers_of, instance_of, instances_of, item_of, items_of, left_of, lefts_of, parameter_of, parameters_of, stmt_of, stmts_of};

use crate::declaration_parts::OutputNames;
use crate::stack::Stack;
use crate::value::Value;
use std::alloc::{AllocError, Global};
use vlog_syntax::{
    Argument, Assignment, CaseItem, DataType, DeclaredName, EventExpression, Expr, Identifier,
    Instance, Item, LeftSide, NamedConnection, ParameterAssignment, Stmt,
};

impl Stack<Value<'_>> {
    /// The next part, an expression, and those behind it.
    pub fn some_exprs(&mut self, alloc: Global) -> Result<Stack<Expr>, AllocError>
        requires { is_expr (first self.old) ≡ true }
        ensures { IfOk result (λ l. l ≡ expr_of (first self.old) ∷ exprs_of (second self.old)) }
    {
        let first = self.expr().into_inner();
        self.exprs(alloc).with(first)
    }

    /// The next part, a left side, and those behind it.
    pub fn some_lefts(&mut self, alloc: Global) -> Result<Stack<LeftSide>, AllocError>
        requires { is_left (first self.old) ≡ true }
        ensures { IfOk result (λ l. l ≡ left_of (first self.old) ∷ lefts_of (second self.old)) }
    {
        let first = self.left();
        self.lefts(alloc).with(first)
    }

    /// The next part, a statement, and those behind it.
    pub fn some_stmts(&mut self, alloc: Global) -> Result<Stack<Stmt>, AllocError>
        requires { is_stmt (first self.old) ≡ true }
        ensures { IfOk result (λ l. l ≡ stmt_of (first self.old) ∷ stmts_of (second self.old)) }
    {
        let first = self.stmt().into_inner();
        self.stmts(alloc).with(first)
    }

    /// The next part, an item of a case statement, and those behind it.
    pub fn some_case_items(&mut self, alloc: Global) -> Result<Stack<CaseItem>, AllocError>
        requires { is_case_item (first self.old) ≡ true }
        ensures { IfOk result (λ l. l ≡ case_item_of (first self.old) ∷ case_items_of (second self.old)) }
    {
        let first = self.case_item();
        self.case_items(alloc).with(first)
    }

    /// The next part, an event, and those behind it.
    pub fn some_events(&mut self, alloc: Global) -> Result<Stack<EventExpression>, AllocError>
        requires { is_event (first self.old) ≡ true }
        ensures { IfOk result (λ l. l ≡ event_of (first self.old) ∷ events_of (second self.old)) }
    {
        let first = self.event();
        self.events(alloc).with(first)
    }

    /// The next part, an argument, and those behind it.
    pub fn some_arguments(&mut self, alloc: Global) -> Result<Stack<Argument>, AllocError>
        requires { is_argument (first self.old) ≡ true }
        ensures { IfOk result (λ l. l ≡ argument_of (first self.old) ∷ arguments_of (second self.old)) }
    {
        let first = self.argument();
        self.arguments(alloc).with(first)
    }

    /// The next part, a declared name, and those behind it.
    pub fn some_declareds(&mut self, alloc: Global) -> Result<Stack<DeclaredName>, AllocError>
        requires { is_declared (first self.old) ≡ true }
        ensures { IfOk result (λ l. l ≡ declared_of (first self.old) ∷ declareds_of (second self.old)) }
    {
        let first = self.declared();
        self.declareds(alloc).with(first)
    }

    /// The next part, a parameter, and those behind it.
    pub fn some_parameters(
        &mut self,
        alloc: Global,
    ) -> Result<Stack<ParameterAssignment>, AllocError>
        requires { is_parameter (first self.old) ≡ true }
        ensures { IfOk result (λ l. l ≡ parameter_of (first self.old) ∷ parameters_of (second self.old)) }
    {
        let first = self.parameter();
        self.parameters(alloc).with(first)
    }

    /// The next part, an assignment, and those behind it.
    pub fn some_assignments(&mut self, alloc: Global) -> Result<Stack<Assignment>, AllocError>
        requires { is_assignment (first self.old) ≡ true }
        ensures { IfOk result (λ l. l ≡ assignment_of (first self.old) ∷ assignments_of (second self.old)) }
    {
        let first = self.assignment();
        self.assignments(alloc).with(first)
    }

    /// The next part, a port by its name, and those behind it.
    pub fn some_connections(&mut self, alloc: Global) -> Result<Stack<NamedConnection>, AllocError>
        requires { is_connection (first self.old) ≡ true }
        ensures { IfOk result (λ l. l ≡ connection_of (first self.old) ∷ connections_of (second self.old)) }
    {
        let first = self.connection();
        self.connections(alloc).with(first)
    }

    /// The next part, an instance, and those behind it.
    pub fn some_instances(&mut self, alloc: Global) -> Result<Stack<Instance>, AllocError>
        requires { is_instance (first self.old) ≡ true }
        ensures { IfOk result (λ l. l ≡ instance_of (first self.old) ∷ instances_of (second self.old)) }
    {
        let first = self.instance();
        self.instances(alloc).with(first)
    }

    /// The next part, an item, and those behind it.
    pub fn some_items(&mut self, alloc: Global) -> Result<Stack<Item>, AllocError>
        requires { is_item (first self.old) ≡ true }
        ensures { IfOk result (λ l. l ≡ item_of (first self.old) ∷ items_of (second self.old)) }
    {
        let first = self.item().into_inner();
        self.items(alloc).with(first)
    }

    /// The next part, an identifier, and those behind it.
    pub fn some_identifiers(&mut self, alloc: Global) -> Result<Stack<Identifier>, AllocError>
        requires { is_identifier (first self.old) ≡ true }
        ensures { IfOk result (λ l. l ≡ identifier_of (first self.old) ∷ identifiers_of (second self.old)) }
    {
        let first = self.identifier();
        self.identifiers(alloc).with(first)
    }

    /// Names of this type: the next part, a declared name, and those behind it.
    pub fn names_of_type(
        &mut self,
        alloc: Global,
        data_type: DataType,
    ) -> Result<OutputNames, AllocError>
        requires { is_declared (first self.old) ≡ true }
        ensures { IfOk result (λ l. l ≡ record { data_type = data_type; names = declared_of (first self.old) ∷ declareds_of (second self.old) }) }
    {
        let first = self.declared();
        let (names, data_type) = self.declareds(alloc).with_beside(first, data_type)?;
        Ok(OutputNames { data_type, names })
    }
}
