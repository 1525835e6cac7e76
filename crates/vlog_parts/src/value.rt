//! What the parts of a text mean, on the way to its trees.
//!
//! The parts of a production stand on a stack, the first part on top. What is asked of a part is of its sort: by the table of
//! productions each part is.
ghost use Rattle.std.specs.Prelude.{◌≡◌, true};
ghost use Rattle.vlog_parts.specs.Sorts.{is_identifier};
ghost use Rattle.vlog_parts.specs.Numbered.{first, rest, second};
ghost use Rattle.vlog_parts.specs.Values.{span_of, token_of, identifier_of, label_of};

use crate::declaration_parts::OutputNames;
use crate::expression_parts::{BraceEnd, Branches, Link, Select, SelectEnd};
use crate::module_parts::{MoreParameters, MorePorts, OutputPorts, ParameterPort};
use crate::stack::Stack;
use crate::statement_parts::{AssignmentSign, CaseKeyword};
use mcy_base::Span;
use vlog_syntax::{
    Argument, Assignment, Boxed, CaseItem, Connections, DeclaredName, Delay, EventControl,
    EventExpression, Expr, Identifier, Instance, Item, LeftSide, Module, NamedConnection,
    ParameterAssignment, ParameterDeclaration, ParameterType, ParameterValues, PortDeclaration,
    Ports, Range, Stmt, VectorType,
};
use vlog_token::Token;

/// What a part means, by its sort. Large values are in boxes, so that a stack of parts is small.
#[derive(Drop)]
pub enum Value<'a> {
    /// A part that is left out, or that means nothing.
    Nothing,
    Token(Token<'a>),
    Identifier(Identifier),
    // expressions and left sides
    Expr(Boxed<Expr>),
    Exprs(Stack<Expr>),
    Chain(Stack<Link>),
    Branches(Boxed<Branches>),
    Select(Select),
    SelectEnd(SelectEnd),
    BraceEnd(BraceEnd),
    LeftSide(Boxed<LeftSide>),
    LeftSides(Stack<LeftSide>),
    // statements
    Stmt(Boxed<Stmt>),
    Stmts(Stack<Stmt>),
    Sign(AssignmentSign),
    CaseKeyword(CaseKeyword),
    CaseItem(CaseItem),
    CaseItems(Stack<CaseItem>),
    // event controls and calls of tasks
    Event(EventExpression),
    Events(Stack<EventExpression>),
    EventControl(EventControl),
    Argument(Argument),
    Arguments(Stack<Argument>),
    // declarations
    Vector(VectorType),
    Range(Range),
    DeclaredName(DeclaredName),
    DeclaredNames(Stack<DeclaredName>),
    OutputNames(Boxed<OutputNames>),
    ParameterType(ParameterType),
    Parameter(ParameterAssignment),
    Parameters(Stack<ParameterAssignment>),
    // items
    Item(Boxed<Item>),
    Items(Stack<Item>),
    Assignment(Boxed<Assignment>),
    Assignments(Stack<Assignment>),
    Delay(Delay),
    ParameterValues(ParameterValues),
    Connection(NamedConnection),
    NamedConnections(Stack<NamedConnection>),
    OrderedConnections(Stack<Option<Boxed<Expr>>>),
    Connections(Connections),
    Instance(Boxed<Instance>),
    Instances(Stack<Instance>),
    // modules
    Modules(Stack<Module>),
    ParameterDeclarations(Stack<ParameterDeclaration>),
    ParameterPort(Boxed<ParameterPort>),
    MoreParameters(MoreParameters),
    Ports(Ports),
    PortDeclarations(Stack<PortDeclaration>),
    MorePorts(MorePorts),
    OutputPorts(Boxed<OutputPorts>),
    Identifiers(Stack<Identifier>),
}

/// The parts of a production.
pub type Parts<'a> = Stack<Value<'a>>;

/// The place of what is not there.
pub const NO_SPAN: Span = Span {
    file: 0,
    line: 0,
    col: 0,
};

impl<'a> Stack<Value<'a>> {
    /// The next part.
    #[tactic(auto, unfolding(crate::specs::Numbered::first, crate::specs::Numbered::rest))]
    pub fn next(&mut self) -> Value<'a>
        ensures value { result ≡ first self.old }
        ensures rest { self.new ≡ rest self.old }
    {
        match self.pop() {
            Some(value) => value,
            None => Value::Nothing,
        }
    }

    /// Goes past the next part.
    pub fn skip(&mut self)
        ensures { self.new ≡ rest self.old }
    {
        drop(self.next());
    }

    /// The part behind the next one.
    pub fn inner(&mut self) -> Value<'a>
        ensures { result ≡ second self.old }
    {
        self.skip();
        self.next()
    }

    /// The place of the next part, a token.
    pub fn span(&mut self) -> Span
        ensures value { result ≡ span_of (first self.old) }
        ensures rest { self.new ≡ rest self.old }
    {
        match self.token() {
            Some(token) => token.span,
            None => NO_SPAN,
        }
    }

    /// The next part, a token.
    #[tactic(auto, using(crate::proofs::Sorts::not_token))]
    pub fn token(&mut self) -> Option<Token<'a>>
        ensures value { result ≡ token_of (first self.old) }
        ensures rest { self.new ≡ rest self.old }
    {
        match self.next() {
            Value::Token(token) => Some(token),
            other => {
                drop(other);
                None
            }
        }
    }

    /// The next part, an identifier.
    #[tactic(auto, using(crate::proofs::Sorts::only_identifier))]
    pub fn identifier(&mut self) -> Identifier
        requires { is_identifier (first self.old) ≡ true }
        ensures value { result ≡ identifier_of (first self.old) }
        ensures rest { self.new ≡ rest self.old }
    {
        match self.next() {
            Value::Identifier(identifier) => identifier,
            _ => unreachable!(),
        }
    }

    /// The next part, an identifier where there is one.
    #[tactic(auto, using(crate::proofs::Sorts::not_label))]
    pub fn label(&mut self) -> Option<Identifier>
        ensures value { result ≡ label_of (first self.old) }
        ensures rest { self.new ≡ rest self.old }
    {
        match self.next() {
            Value::Identifier(label) => Some(label),
            other => {
                drop(other);
                None
            }
        }
    }
}
