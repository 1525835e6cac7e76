//! Declarations and the other items of modules (IEEE 1364-2005, 12 and A.1.4).
ghost use Rattle.std.specs.Prelude.{◌≡◌};

use crate::boxed::Boxed;
use crate::expr::Expr;
use crate::identifier::Identifier;
use crate::listed::Listed;
use crate::stmt::{Assignment, Stmt};
use mcy_base::Span;

/// `[msb:lsb]`, with the place of its `[`.
pub struct Range {
    pub span: Span,
    pub msb: Boxed<Expr>,
    pub lsb: Boxed<Expr>,
}

impl Drop for Range {
    fn drop(self) {
        let Range {
            span: _span,
            msb: _msb,
            lsb: _lsb,
        } = self;
    }
}

/// The direction of a port.
#[derive(Clone, Copy)]
pub enum Direction {
    Input,
    Output,
}

/// What `signed` and a range say of a vector (IEEE 1364-2005, 4.3). Without a range it has one bit.
pub struct VectorType {
    pub is_signed: bool,
    pub range: Option<Range>,
}

impl Drop for VectorType {
    fn drop(self) {
        let VectorType {
            is_signed: _is_signed,
            range: _range,
        } = self;
    }
}

/// The type of a net or variable.
pub enum DataType {
    Wire(VectorType),
    Reg(VectorType),
    Integer,
}

impl Drop for DataType {
    fn drop(self) {
        match self {
            DataType::Wire(_vector) => {}
            DataType::Reg(_vector) => {}
            DataType::Integer => {}
        }
    }
}

/// A declared name, with its initial value where one is written.
pub struct DeclaredName {
    pub name: Identifier,
    pub initial: Option<Boxed<Expr>>,
}

impl Drop for DeclaredName {
    fn drop(self) {
        let DeclaredName {
            name: _name,
            initial: _initial,
        } = self;
    }
}

impl DeclaredName {
    /// The name alone.
    pub fn into_name(self) -> Identifier
        ensures { result ≡ self.name }
    {
        let DeclaredName { name, initial } = self;
        drop(initial);
        name
    }
}

/// `input a, b`: ports of one direction and type, which is a wire's where none is written.
pub struct PortDeclaration {
    pub span: Span,
    pub direction: Direction,
    pub data_type: DataType,
    pub names: Listed<DeclaredName>,
}

impl Drop for PortDeclaration {
    fn drop(self) {
        let PortDeclaration {
            span: _span,
            direction: _direction,
            data_type: _data_type,
            names: _names,
        } = self;
    }
}

/// `wire a, b`, `reg a, b` or `integer a, b`
pub struct DataDeclaration {
    pub span: Span,
    pub data_type: DataType,
    pub names: Listed<DeclaredName>,
}

impl Drop for DataDeclaration {
    fn drop(self) {
        let DataDeclaration {
            span: _span,
            data_type: _data_type,
            names: _names,
        } = self;
    }
}

/// Whether an instance can give a parameter another value.
#[derive(Clone, Copy)]
pub enum ParameterKind {
    Parameter,
    Localparam,
}

/// The type of a parameter.
pub enum ParameterType {
    Vector(VectorType),
    Integer,
}

impl Drop for ParameterType {
    fn drop(self) {
        match self {
            ParameterType::Vector(_vector) => {}
            ParameterType::Integer => {}
        }
    }
}

/// `name = value`, of a parameter.
pub struct ParameterAssignment {
    pub name: Identifier,
    pub value: Boxed<Expr>,
}

impl Drop for ParameterAssignment {
    fn drop(self) {
        let ParameterAssignment {
            name: _name,
            value: _value,
        } = self;
    }
}

/// `parameter a = 1, b = 2`
pub struct ParameterDeclaration {
    pub span: Span,
    pub kind: ParameterKind,
    pub data_type: ParameterType,
    pub assignments: Listed<ParameterAssignment>,
}

impl Drop for ParameterDeclaration {
    fn drop(self) {
        let ParameterDeclaration {
            span: _span,
            kind: _kind,
            data_type: _data_type,
            assignments: _assignments,
        } = self;
    }
}

/// The ports in the head of a module.
pub enum Ports {
    /// Names that are declared by items.
    Names(Listed<Identifier>),
    /// Declarations.
    Declarations(Listed<PortDeclaration>),
}

impl Drop for Ports {
    fn drop(self) {
        match self {
            Ports::Names(_names) => {}
            Ports::Declarations(_declarations) => {}
        }
    }
}

/// `.name(value)`
pub struct NamedConnection {
    pub name: Identifier,
    pub value: Option<Boxed<Expr>>,
}

impl Drop for NamedConnection {
    fn drop(self) {
        let NamedConnection {
            name: _name,
            value: _value,
        } = self;
    }
}

/// The ports of an instance.
pub enum Connections {
    /// By their places. A place may be left empty.
    Ordered(Listed<Option<Boxed<Expr>>>),
    /// By their names.
    Named(Listed<NamedConnection>),
}

impl Drop for Connections {
    fn drop(self) {
        match self {
            Connections::Ordered(_values) => {}
            Connections::Named(_connections) => {}
        }
    }
}

/// The parameters of an instance.
pub enum ParameterValues {
    /// By their places.
    Ordered(Listed<Expr>),
    /// By their names.
    Named(Listed<NamedConnection>),
}

impl Drop for ParameterValues {
    fn drop(self) {
        match self {
            ParameterValues::Ordered(_values) => {}
            ParameterValues::Named(_connections) => {}
        }
    }
}

/// `name(..)`, of an instantiation.
pub struct Instance {
    pub name: Identifier,
    pub ports: Connections,
}

impl Drop for Instance {
    fn drop(self) {
        let Instance {
            name: _name,
            ports: _ports,
        } = self;
    }
}

/// When a process runs (IEEE 1364-2005, 9.9).
#[derive(Clone, Copy)]
pub enum ProcessKind {
    Initial,
    Always,
}

/// An `initial` or `always` construct, with the place of that word.
pub struct Process {
    pub span: Span,
    pub kind: ProcessKind,
    pub body: Boxed<Stmt>,
}

impl Drop for Process {
    fn drop(self) {
        let Process {
            span: _span,
            kind: _kind,
            body: _body,
        } = self;
    }
}

/// `#value`, with the place of its `#`.
pub struct Delay {
    pub span: Span,
    pub value: Boxed<Expr>,
}

impl Drop for Delay {
    fn drop(self) {
        let Delay {
            span: _span,
            value: _value,
        } = self;
    }
}

/// `for (name = start; condition; step_name = step)`, of a loop generate construct, with the place of its `for`.
pub struct GenerateLoop {
    pub span: Span,
    pub name: Identifier,
    pub start: Boxed<Expr>,
    pub condition: Boxed<Expr>,
    pub step_name: Identifier,
    pub step: Boxed<Expr>,
}

impl Drop for GenerateLoop {
    fn drop(self) {
        let GenerateLoop {
            span: _span,
            name: _name,
            start: _start,
            condition: _condition,
            step_name: _step_name,
            step: _step,
        } = self;
    }
}

/// An item that is no generate construct.
pub enum PlainItem {
    /// `input` and `output`
    PortDeclaration(PortDeclaration),
    /// `wire`, `reg` and `integer`
    DataDeclaration(DataDeclaration),
    /// `genvar a, b;`
    GenvarDeclaration(Span, Listed<DeclaredName>),
    /// `parameter` and `localparam`
    ParameterDeclaration(ParameterDeclaration),
    /// `assign #delay left = value, ..;`
    ContinuousAssign(Span, Option<Delay>, Listed<Assignment>),
    /// `initial` and `always`
    Process(Process),
    /// `module #(..) name(..), ..;`
    ModuleInstantiation(Identifier, ParameterValues, Listed<Instance>),
}

impl Drop for PlainItem {
    fn drop(self) {
        match self {
            PlainItem::PortDeclaration(_ports) => {}
            PlainItem::DataDeclaration(_data) => {}
            PlainItem::GenvarDeclaration(_span, _names) => {}
            PlainItem::ParameterDeclaration(_parameters) => {}
            PlainItem::ContinuousAssign(_span, _delay, _assignments) => {}
            PlainItem::Process(_process) => {}
            PlainItem::ModuleInstantiation(_module, _parameters, _instances) => {}
        }
    }
}

/// An item of a module. The place is that of its first token, attributes aside.
pub enum Item {
    /// An item that is no generate construct.
    Plain(Boxed<PlainItem>),
    /// `generate .. endgenerate`
    GenerateRegion(Span, Listed<Item>),
    /// `for (..) block`
    LoopGenerate(GenerateLoop, Boxed<Item>),
    /// `if (condition) yes else no`
    IfGenerate(Span, Boxed<Expr>, Boxed<Item>, Option<Boxed<Item>>),
    /// `begin : name .. end`, as the block of a loop or a condition.
    GenerateBlock(Span, Option<Identifier>, Listed<Item>),
    /// `;`, in the place of a condition's block.
    NullGenerate(Span),
}

impl Drop for Item {
    fn drop(self) {
        match self {
            Item::Plain(_item) => {}
            Item::GenerateRegion(_span, _items) => {}
            Item::LoopGenerate(_head, _block) => {}
            Item::IfGenerate(_span, _condition, _yes, _no) => {}
            Item::GenerateBlock(_span, _name, _items) => {}
            Item::NullGenerate(_span) => {}
        }
    }
}
