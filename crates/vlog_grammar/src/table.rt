//! The grammar of the Verilog profile as a table: each production's parts, and the production that the next token calls for.
//!
//! `specs/Grammar.antt` has the same table with each production's kind; the clauses say that both agree.
ghost use Rattle.std.specs.Prelude.{◌≡◌};
ghost use Rattle.vlog_grammar.specs.Choice.{choice};
ghost use Rattle.vlog_grammar.specs.Grammar.{parts_of};

use crate::class::Class;
use crate::rule::{Kind, Rule};
use vlog_syntax::Feature;

/// A part of a production: a token, a token at which a construct is refused by name, or a nonterminal.
#[derive(Clone, Copy)]
pub enum Symbol {
    Is(Class),
    Refused(Class, Feature),
    Of(Kind),
}

// `[Else]` is a token, `{Case GenerateCase}` a refused one, and `Statement` a nonterminal.
macro_rules! symbol {
    ([$class:ident]) => {
        Symbol::Is(Class::$class)
    };
    ({$class:ident $feature:ident}) => {
        Symbol::Refused(Class::$class, Feature::$feature)
    };
    ($kind:ident) => {
        Symbol::Of(Kind::$kind)
    };
}

macro_rules! parts {
    ($($symbol:tt)*) => {
        &[$(symbol!($symbol)),*]
    };
}

/// The parts of a production, in order.
#[tactic(auto, unfolding(crate::specs::Grammar::production))]
pub fn parts_of(rule: Rule) -> &'static [Symbol]
    ensures { result.now ≡ parts_of rule }
{
    match rule {
        // A.1.2, A.1.3 source text
        Rule::NoDescription => parts![],
        Rule::ModuleDeclaration =>
            parts![[Module] Identifier ParameterPorts PortList [Semicolon] ModuleItems [EndModule] SourceText],
        Rule::PrimitiveDescription => parts![{Primitive Primitive}],
        Rule::GateDescription => parts![{Or Primitive}],
        Rule::SystemVerilogDescription => parts![{SystemVerilog SystemVerilog}],
        // A.9.3 identifiers
        Rule::PlainIdentifier => parts![[Name]],
        Rule::SystemVerilogIdentifier => parts![[SystemVerilog]],
        // A.9.1 attributes
        Rule::NoAttribute => parts![],
        Rule::AttributeInstance => parts![[OpenParen] [AttributeStar] AttributeSpecs Attributes],
        Rule::AttributeEnd => parts![[AttributeEnd]],
        Rule::AttributeSpec => parts![[AttributeText] AttributeSpecs],
        // A.1.3 module parameters and ports
        Rule::NoParameterPort => parts![],
        Rule::ParameterPortList =>
            parts![[Hash] [OpenParen] [Parameter] ParameterType ParamAssignment MoreParameterPorts [CloseParen]],
        Rule::NoMoreParameterPort => parts![],
        Rule::NextParameterPort => parts![[Comma] ParameterPort MoreParameterPorts],
        Rule::ParameterPortDeclaration => parts![[Parameter] ParameterType ParamAssignment],
        Rule::ParameterPortAssignment => parts![ParamAssignment],
        Rule::NoPortList => parts![],
        Rule::SomePortList => parts![[OpenParen] Ports [CloseParen]],
        Rule::NoPort => parts![],
        Rule::PortReferences => parts![Identifier MoreIdentifiers],
        Rule::PortDeclarations => parts![PortDeclaration],
        Rule::NoMoreIdentifier => parts![],
        Rule::NextIdentifier => parts![[Comma] Identifier MoreIdentifiers],
        Rule::AnsiPortDeclaration => parts![Attributes PortDirection],
        Rule::InputPorts => parts![[Input] NetType DeclaredName NetPorts],
        Rule::OutputPorts => parts![[Output] OutputPorts],
        Rule::OutputNetPorts => parts![NetType DeclaredName NetPorts],
        Rule::OutputRegPorts => parts![[Reg] SignedRange Variable VariablePorts],
        Rule::OutputIntegerPorts => parts![[Integer] Variable VariablePorts],
        Rule::NoNetPort => parts![],
        Rule::NextNetPort => parts![[Comma] NetPort],
        Rule::NetPortName => parts![DeclaredName NetPorts],
        Rule::NetPortDeclaration => parts![PortDeclaration],
        Rule::NoVariablePort => parts![],
        Rule::NextVariablePort => parts![[Comma] VariablePort],
        Rule::VariablePortName => parts![Variable VariablePorts],
        Rule::VariablePortDeclaration => parts![PortDeclaration],
        // A.1.4 module items
        Rule::NoModuleItem => parts![],
        Rule::MoreModuleItems => parts![Attributes ModuleItem ModuleItems],
        Rule::InputDeclaration =>
            parts![[Input] NetType DeclaredName MoreDeclaredNames [Semicolon]],
        Rule::OutputDeclaration => parts![[Output] OutputNames [Semicolon]],
        Rule::ParameterDeclaration =>
            parts![[Parameter] ParameterType ParamAssignment MoreParamAssignments [Semicolon]],
        Rule::GenerateRegion => parts![[Generate] GenerateItems [EndGenerate]],
        Rule::ModuleOrGenerateItem => parts![GenerateItem],
        Rule::OutputNet => parts![NetType DeclaredName MoreDeclaredNames],
        Rule::OutputReg => parts![[Reg] SignedRange Variable MoreVariables],
        Rule::OutputInteger => parts![[Integer] Variable MoreVariables],
        Rule::NoGenerateItem => parts![],
        Rule::MoreGenerateItems => parts![Attributes GenerateItem GenerateItems],
        Rule::NetDeclaration => parts![[Wire] SignedRange Variable MoreVariables [Semicolon]],
        Rule::RegDeclaration => parts![[Reg] SignedRange Variable MoreVariables [Semicolon]],
        Rule::IntegerDeclaration => parts![[Integer] Variable MoreVariables [Semicolon]],
        Rule::GenvarDeclaration => parts![[Genvar] DeclaredName MoreDeclaredNames [Semicolon]],
        Rule::LocalParameterDeclaration =>
            parts![[Localparam] ParameterType ParamAssignment MoreParamAssignments [Semicolon]],
        Rule::ContinuousAssign =>
            parts![[Assign] DelayPart NetAssignment MoreNetAssignments [Semicolon]],
        Rule::AlwaysConstruct => parts![[Always] Statement],
        Rule::InitialConstruct => parts![[Initial] Statement],
        Rule::ModuleInstantiation =>
            parts![[Name] ParameterValues ModuleInstance MoreModuleInstances [Semicolon]],
        Rule::LoopGenerate =>
            parts![[For] [OpenParen] Identifier [Equals] Expression [Semicolon] Expression [Semicolon] Identifier [Equals] Expression [CloseParen] GenerateBlock],
        Rule::ConditionalGenerate =>
            parts![[If] [OpenParen] Expression [CloseParen] GenerateBlockOrNull GenerateElse],
        Rule::PrimitiveItem => parts![{Primitive Primitive}],
        Rule::GateItem => parts![{Or Primitive}],
        Rule::CaseGenerate => parts![{Case GenerateCase}],
        Rule::SystemVerilogItem => parts![{SystemVerilog SystemVerilog}],
        // A.4.2 generate constructs
        Rule::GenerateOneItem => parts![Attributes GenerateItem],
        Rule::GenerateBeginEnd => parts![[Begin] BlockName GenerateItems [End]],
        Rule::NullGenerate => parts![[Semicolon]],
        Rule::SomeGenerate => parts![GenerateBlock],
        Rule::NoGenerateElse => parts![],
        Rule::SomeGenerateElse => parts![[Else] GenerateBlockOrNull],
        Rule::NoBlockName => parts![],
        Rule::SomeBlockName => parts![[Colon] Identifier],
        // A.2 declarations
        Rule::ImplicitNet => parts![SignedRange],
        Rule::ExplicitNet => parts![[Wire] SignedRange],
        Rule::UnsignedRange => parts![RangePart],
        Rule::SignedRange => parts![[Signed] RangePart],
        Rule::NoRange => parts![],
        Rule::SomeRange => parts![[OpenBracket] Expression [Colon] Expression [CloseBracket]],
        Rule::NameDeclared => parts![Identifier Dimension],
        Rule::NoDimension => parts![],
        Rule::SomeDimension => parts![{OpenBracket Memory}],
        Rule::NoMoreDeclaredName => parts![],
        Rule::NextDeclaredName => parts![[Comma] DeclaredName MoreDeclaredNames],
        Rule::VariableDeclared => parts![DeclaredName InitialValue],
        Rule::NoInitialValue => parts![],
        Rule::SomeInitialValue => parts![[Equals] Expression],
        Rule::NoMoreVariable => parts![],
        Rule::NextVariable => parts![[Comma] Variable MoreVariables],
        Rule::VectorParameter => parts![SignedRange],
        Rule::IntegerParameter => parts![[Integer]],
        Rule::ParamAssigned => parts![DeclaredName [Equals] Expression],
        Rule::NoMoreParamAssignment => parts![],
        Rule::NextParamAssignment => parts![[Comma] ParamAssignment MoreParamAssignments],
        // A.2.2.3 delays, A.6.1 continuous assignments
        Rule::NoDelay => parts![],
        Rule::SomeDelay => parts![[Hash] DelayValue],
        Rule::DelayNumber => parts![[Number]],
        Rule::DelayName => parts![Identifier],
        Rule::DelayExpression => parts![[OpenParen] Expression [CloseParen]],
        Rule::NetAssigned => parts![LeftSide [Equals] Expression],
        Rule::NoMoreNetAssignment => parts![],
        Rule::NextNetAssignment => parts![[Comma] NetAssignment MoreNetAssignments],
        // A.4.1 module instantiation
        Rule::NoParameterValue => parts![],
        Rule::SomeParameterValues => parts![[Hash] [OpenParen] ParameterList [CloseParen]],
        Rule::NamedParameters => parts![NamedConnection MoreNamedConnections],
        Rule::OrderedParameters => parts![Expression MoreExpressions],
        Rule::InstanceOfModule => parts![Identifier [OpenParen] Connections [CloseParen]],
        Rule::NoMoreModuleInstance => parts![],
        Rule::NextModuleInstance => parts![[Comma] ModuleInstance MoreModuleInstances],
        Rule::NamedConnections => parts![NamedConnection MoreNamedConnections],
        Rule::OrderedConnections => parts![ExpressionPart MoreOrderedConnections],
        Rule::ConnectionByName => parts![[Dot] Identifier [OpenParen] ExpressionPart [CloseParen]],
        Rule::NoMoreNamedConnection => parts![],
        Rule::NextNamedConnection => parts![[Comma] NamedConnection MoreNamedConnections],
        Rule::NoMoreOrderedConnection => parts![],
        Rule::NextOrderedConnection => parts![[Comma] ExpressionPart MoreOrderedConnections],
        Rule::NoExpression => parts![],
        Rule::SomeExpression => parts![Expression],
        Rule::NoMoreExpression => parts![],
        Rule::NextExpression => parts![[Comma] Expression MoreExpressions],
        // A.6 statements
        Rule::StatementWithAttributes => parts![Attributes StatementItem],
        Rule::NullStatement => parts![[Semicolon]],
        Rule::SeqBlock => parts![[Begin] BlockName Statements [End]],
        Rule::ConditionalStatement =>
            parts![[If] [OpenParen] Expression [CloseParen] Statement ElsePart],
        Rule::CaseStatement =>
            parts![CaseKeyword [OpenParen] Expression [CloseParen] CaseItems [EndCase]],
        Rule::ForStatement =>
            parts![[For] [OpenParen] LeftSide [Equals] Expression [Semicolon] Expression [Semicolon] LeftSide [Equals] Expression [CloseParen] Statement],
        Rule::WhileStatement => parts![[While] [OpenParen] Expression [CloseParen] Statement],
        Rule::RepeatStatement => parts![[Repeat] [OpenParen] Expression [CloseParen] Statement],
        Rule::ForeverStatement => parts![[Forever] Statement],
        Rule::EventControlStatement => parts![[At] EventControl Statement],
        Rule::DelayControlStatement => parts![[Hash] DelayValue Statement],
        Rule::SystemTaskEnable => parts![[System] TaskArguments [Semicolon]],
        Rule::UnaryFunctionEnable => parts![[UnaryFunction] TaskArguments [Semicolon]],
        Rule::Assignment => parts![LeftSide AssignmentOperator Expression [Semicolon]],
        Rule::Blocking => parts![[Equals]],
        Rule::Nonblocking => parts![[LessEqual]],
        Rule::NoStatement => parts![],
        Rule::MoreStatements => parts![Statement Statements],
        Rule::NoElse => parts![],
        Rule::SomeElse => parts![[Else] Statement],
        Rule::CaseExact => parts![[Case]],
        Rule::CaseZ => parts![[CaseZ]],
        Rule::CaseX => parts![[CaseX]],
        Rule::FirstCaseItem => parts![CaseItem MoreCaseItems],
        Rule::FirstDefault => parts![DefaultItem LabelledItems],
        Rule::NoMoreCaseItem => parts![],
        Rule::NextCaseItem => parts![CaseItem MoreCaseItems],
        Rule::NextDefault => parts![DefaultItem LabelledItems],
        Rule::NoLabelledItem => parts![],
        Rule::NextLabelledItem => parts![CaseItem LabelledItems],
        Rule::LabelledCaseItem => parts![Expression MoreExpressions [Colon] Statement],
        Rule::DefaultCaseItem => parts![[Default] ColonPart Statement],
        Rule::NoColon => parts![],
        Rule::SomeColon => parts![[Colon]],
        Rule::EventAny => parts![[Star]],
        Rule::EventIdentifier => parts![Identifier],
        Rule::EventInParens => parts![[OpenParen] EventExpressions [CloseParen]],
        Rule::EventAnyInParens => parts![[Star]],
        Rule::EventList => parts![EventExpression MoreEventExpressions],
        Rule::PosedgeEvent => parts![[Posedge] Identifier],
        Rule::NegedgeEvent => parts![[Negedge] Identifier],
        Rule::PlainEvent => parts![Identifier],
        Rule::NoMoreEvent => parts![],
        Rule::OrEvent => parts![[Or] EventExpression MoreEventExpressions],
        Rule::CommaEvent => parts![[Comma] EventExpression MoreEventExpressions],
        Rule::NoTaskArguments => parts![],
        Rule::SomeTaskArguments => parts![[OpenParen] TaskArgumentList [CloseParen]],
        Rule::NoTaskArgument => parts![],
        Rule::FirstTaskArgument => parts![TaskArgument MoreTaskArguments],
        Rule::NoMoreTaskArgument => parts![],
        Rule::NextTaskArgument => parts![[Comma] TaskArgument MoreTaskArguments],
        Rule::StringArgument => parts![[String]],
        Rule::ExpressionArgument => parts![Expression],
        // A.8.5 left sides, A.8.4 selects
        Rule::LeftName => parts![Identifier SelectPart],
        Rule::LeftConcatenation => parts![[OpenBrace] LeftSide MoreLeftSides [CloseBrace]],
        Rule::NoMoreLeftSide => parts![],
        Rule::NextLeftSide => parts![[Comma] LeftSide MoreLeftSides],
        Rule::NoSelect => parts![],
        Rule::SomeSelect => parts![[OpenBracket] Expression SelectEnd],
        Rule::BitSelect => parts![[CloseBracket]],
        Rule::PartSelect => parts![[Colon] Expression [CloseBracket]],
        Rule::IndexedPartSelect => parts![[PlusColon] Expression [CloseBracket]],
        // A.8.3 expressions, 5.1.2 precedence
        Rule::OperandWithChains =>
            parts![Operand PowerChain ProductChain SumChain ShiftChain RelationChain EqualityChain AndChain XorChain OrChain LogicalAndChain LogicalOrChain ConditionPart],
        Rule::NoPower => parts![],
        Rule::Power => parts![[Power] Operand PowerChain],
        Rule::NoProduct => parts![],
        Rule::Times => parts![[Star] Operand PowerChain ProductChain],
        Rule::Divide => parts![[Slash] Operand PowerChain ProductChain],
        Rule::Remainder => parts![[Percent] Operand PowerChain ProductChain],
        Rule::NoSum => parts![],
        Rule::Plus => parts![[Plus] Operand PowerChain ProductChain SumChain],
        Rule::Minus => parts![[Minus] Operand PowerChain ProductChain SumChain],
        Rule::NoShift => parts![],
        Rule::ShiftLeft => parts![[ShiftLeft] Operand PowerChain ProductChain SumChain ShiftChain],
        Rule::ShiftRight =>
            parts![[ShiftRight] Operand PowerChain ProductChain SumChain ShiftChain],
        Rule::ShiftLeftSigned =>
            parts![[ShiftLeftSigned] Operand PowerChain ProductChain SumChain ShiftChain],
        Rule::ShiftRightSigned =>
            parts![[ShiftRightSigned] Operand PowerChain ProductChain SumChain ShiftChain],
        Rule::NoRelation => parts![],
        Rule::Less =>
            parts![[Less] Operand PowerChain ProductChain SumChain ShiftChain RelationChain],
        Rule::LessEqual =>
            parts![[LessEqual] Operand PowerChain ProductChain SumChain ShiftChain RelationChain],
        Rule::Greater =>
            parts![[Greater] Operand PowerChain ProductChain SumChain ShiftChain RelationChain],
        Rule::GreaterEqual =>
            parts![[GreaterEqual] Operand PowerChain ProductChain SumChain ShiftChain RelationChain],
        Rule::NoEquality => parts![],
        Rule::Equal =>
            parts![[Equal] Operand PowerChain ProductChain SumChain ShiftChain RelationChain EqualityChain],
        Rule::Unequal =>
            parts![[Unequal] Operand PowerChain ProductChain SumChain ShiftChain RelationChain EqualityChain],
        Rule::CaseEqual =>
            parts![[CaseEqual] Operand PowerChain ProductChain SumChain ShiftChain RelationChain EqualityChain],
        Rule::CaseUnequal =>
            parts![[CaseUnequal] Operand PowerChain ProductChain SumChain ShiftChain RelationChain EqualityChain],
        Rule::NoAnd => parts![],
        Rule::BitAnd =>
            parts![[And] Operand PowerChain ProductChain SumChain ShiftChain RelationChain EqualityChain AndChain],
        Rule::NoXor => parts![],
        Rule::BitXor =>
            parts![[Xor] Operand PowerChain ProductChain SumChain ShiftChain RelationChain EqualityChain AndChain XorChain],
        Rule::BitXnor =>
            parts![[Xnor] Operand PowerChain ProductChain SumChain ShiftChain RelationChain EqualityChain AndChain XorChain],
        Rule::NoOr => parts![],
        Rule::BitOr =>
            parts![[Bar] Operand PowerChain ProductChain SumChain ShiftChain RelationChain EqualityChain AndChain XorChain OrChain],
        Rule::NoLogicalAnd => parts![],
        Rule::LogicalAnd =>
            parts![[LogicalAnd] Operand PowerChain ProductChain SumChain ShiftChain RelationChain EqualityChain AndChain XorChain OrChain LogicalAndChain],
        Rule::NoLogicalOr => parts![],
        Rule::LogicalOr =>
            parts![[LogicalOr] Operand PowerChain ProductChain SumChain ShiftChain RelationChain EqualityChain AndChain XorChain OrChain LogicalAndChain LogicalOrChain],
        Rule::NoCondition => parts![],
        Rule::SomeCondition => parts![[Question] Expression [Colon] Expression],
        Rule::UnaryPlus => parts![[Plus] Operand],
        Rule::UnaryMinus => parts![[Minus] Operand],
        Rule::LogicalNot => parts![[Not] Operand],
        Rule::BitNot => parts![[Tilde] Operand],
        Rule::ReductionAnd => parts![[And] Operand],
        Rule::ReductionNand => parts![[Nand] Operand],
        Rule::ReductionOr => parts![[Bar] Operand],
        Rule::ReductionNor => parts![[Nor] Operand],
        Rule::ReductionXor => parts![[Xor] Operand],
        Rule::ReductionXnor => parts![[Xnor] Operand],
        Rule::NumberOperand => parts![[Number]],
        Rule::NameOperand => parts![Identifier SelectPart],
        Rule::SystemFunctionCall => parts![[System] FunctionArguments],
        Rule::UnaryFunctionCall => parts![[UnaryFunction] [OpenParen] Expression [CloseParen]],
        Rule::Parenthesized => parts![[OpenParen] Expression [CloseParen]],
        Rule::Braces => parts![[OpenBrace] Expression BraceEnd],
        Rule::NoFunctionArguments => parts![],
        Rule::SomeFunctionArguments => parts![[OpenParen] Expression MoreExpressions [CloseParen]],
        Rule::Concatenation => parts![MoreExpressions[CloseBrace]],
        Rule::Replication =>
            parts![[OpenBrace] Expression MoreExpressions [CloseBrace] [CloseBrace]],
    }
}

/// The production of a nonterminal that the next token calls for. None where no text has that token there.
#[tactic(auto, unfolding(crate::specs::Choice::choice))]
pub fn choice(kind: Kind, next: Class) -> Option<Rule>
    ensures { result ≡ choice kind next }
{
    match kind {
        Kind::SourceText => match next {
            Class::SystemVerilog => Some(Rule::SystemVerilogDescription),
            Class::Module => Some(Rule::ModuleDeclaration),
            Class::Primitive => Some(Rule::PrimitiveDescription),
            Class::Or => Some(Rule::GateDescription),
            _ => Some(Rule::NoDescription),
        },
        Kind::Identifier => match next {
            Class::Name => Some(Rule::PlainIdentifier),
            Class::SystemVerilog => Some(Rule::SystemVerilogIdentifier),
            _ => None,
        },
        Kind::Attributes => match next {
            Class::OpenParen => Some(Rule::AttributeInstance),
            _ => Some(Rule::NoAttribute),
        },
        Kind::AttributeSpecs => match next {
            Class::AttributeEnd => Some(Rule::AttributeEnd),
            Class::AttributeText => Some(Rule::AttributeSpec),
            _ => None,
        },
        Kind::ParameterPorts => match next {
            Class::Hash => Some(Rule::ParameterPortList),
            _ => Some(Rule::NoParameterPort),
        },
        Kind::MoreParameterPorts => match next {
            Class::Comma => Some(Rule::NextParameterPort),
            _ => Some(Rule::NoMoreParameterPort),
        },
        Kind::ParameterPort => match next {
            Class::Parameter => Some(Rule::ParameterPortDeclaration),
            _ => Some(Rule::ParameterPortAssignment),
        },
        Kind::PortList => match next {
            Class::OpenParen => Some(Rule::SomePortList),
            _ => Some(Rule::NoPortList),
        },
        Kind::Ports => match next {
            Class::Name | Class::SystemVerilog => Some(Rule::PortReferences),
            Class::CloseParen => Some(Rule::NoPort),
            _ => Some(Rule::PortDeclarations),
        },
        Kind::MoreIdentifiers => match next {
            Class::Comma => Some(Rule::NextIdentifier),
            _ => Some(Rule::NoMoreIdentifier),
        },
        Kind::PortDeclaration => Some(Rule::AnsiPortDeclaration),
        Kind::PortDirection => match next {
            Class::Input => Some(Rule::InputPorts),
            Class::Output => Some(Rule::OutputPorts),
            _ => None,
        },
        Kind::OutputPorts => match next {
            Class::Reg => Some(Rule::OutputRegPorts),
            Class::Integer => Some(Rule::OutputIntegerPorts),
            _ => Some(Rule::OutputNetPorts),
        },
        Kind::NetPorts => match next {
            Class::Comma => Some(Rule::NextNetPort),
            _ => Some(Rule::NoNetPort),
        },
        Kind::NetPort => match next {
            Class::Name | Class::SystemVerilog => Some(Rule::NetPortName),
            _ => Some(Rule::NetPortDeclaration),
        },
        Kind::VariablePorts => match next {
            Class::Comma => Some(Rule::NextVariablePort),
            _ => Some(Rule::NoVariablePort),
        },
        Kind::VariablePort => match next {
            Class::Name | Class::SystemVerilog => Some(Rule::VariablePortName),
            _ => Some(Rule::VariablePortDeclaration),
        },
        Kind::ModuleItems => match next {
            Class::EndModule => Some(Rule::NoModuleItem),
            _ => Some(Rule::MoreModuleItems),
        },
        Kind::ModuleItem => match next {
            Class::Parameter => Some(Rule::ParameterDeclaration),
            Class::Input => Some(Rule::InputDeclaration),
            Class::Output => Some(Rule::OutputDeclaration),
            Class::Generate => Some(Rule::GenerateRegion),
            _ => Some(Rule::ModuleOrGenerateItem),
        },
        Kind::OutputNames => match next {
            Class::Reg => Some(Rule::OutputReg),
            Class::Integer => Some(Rule::OutputInteger),
            _ => Some(Rule::OutputNet),
        },
        Kind::GenerateItems => match next {
            Class::EndGenerate | Class::End => Some(Rule::NoGenerateItem),
            _ => Some(Rule::MoreGenerateItems),
        },
        Kind::GenerateItem => match next {
            Class::Name => Some(Rule::ModuleInstantiation),
            Class::SystemVerilog => Some(Rule::SystemVerilogItem),
            Class::Primitive => Some(Rule::PrimitiveItem),
            Class::Or => Some(Rule::GateItem),
            Class::Reg => Some(Rule::RegDeclaration),
            Class::Integer => Some(Rule::IntegerDeclaration),
            Class::Wire => Some(Rule::NetDeclaration),
            Class::Genvar => Some(Rule::GenvarDeclaration),
            Class::Localparam => Some(Rule::LocalParameterDeclaration),
            Class::Assign => Some(Rule::ContinuousAssign),
            Class::Always => Some(Rule::AlwaysConstruct),
            Class::Initial => Some(Rule::InitialConstruct),
            Class::For => Some(Rule::LoopGenerate),
            Class::If => Some(Rule::ConditionalGenerate),
            Class::Case => Some(Rule::CaseGenerate),
            _ => None,
        },
        Kind::GenerateBlock => match next {
            Class::Begin => Some(Rule::GenerateBeginEnd),
            _ => Some(Rule::GenerateOneItem),
        },
        Kind::GenerateBlockOrNull => match next {
            Class::Semicolon => Some(Rule::NullGenerate),
            _ => Some(Rule::SomeGenerate),
        },
        Kind::GenerateElse => match next {
            Class::Else => Some(Rule::SomeGenerateElse),
            _ => Some(Rule::NoGenerateElse),
        },
        Kind::BlockName => match next {
            Class::Colon => Some(Rule::SomeBlockName),
            _ => Some(Rule::NoBlockName),
        },
        Kind::NetType => match next {
            Class::Wire => Some(Rule::ExplicitNet),
            _ => Some(Rule::ImplicitNet),
        },
        Kind::SignedRange => match next {
            Class::Signed => Some(Rule::SignedRange),
            _ => Some(Rule::UnsignedRange),
        },
        Kind::RangePart => match next {
            Class::OpenBracket => Some(Rule::SomeRange),
            _ => Some(Rule::NoRange),
        },
        Kind::DeclaredName => Some(Rule::NameDeclared),
        Kind::Dimension => match next {
            Class::OpenBracket => Some(Rule::SomeDimension),
            _ => Some(Rule::NoDimension),
        },
        Kind::MoreDeclaredNames => match next {
            Class::Comma => Some(Rule::NextDeclaredName),
            _ => Some(Rule::NoMoreDeclaredName),
        },
        Kind::Variable => Some(Rule::VariableDeclared),
        Kind::InitialValue => match next {
            Class::Equals => Some(Rule::SomeInitialValue),
            _ => Some(Rule::NoInitialValue),
        },
        Kind::MoreVariables => match next {
            Class::Comma => Some(Rule::NextVariable),
            _ => Some(Rule::NoMoreVariable),
        },
        Kind::ParameterType => match next {
            Class::Integer => Some(Rule::IntegerParameter),
            _ => Some(Rule::VectorParameter),
        },
        Kind::ParamAssignment => Some(Rule::ParamAssigned),
        Kind::MoreParamAssignments => match next {
            Class::Comma => Some(Rule::NextParamAssignment),
            _ => Some(Rule::NoMoreParamAssignment),
        },
        Kind::DelayPart => match next {
            Class::Hash => Some(Rule::SomeDelay),
            _ => Some(Rule::NoDelay),
        },
        Kind::DelayValue => match next {
            Class::Number => Some(Rule::DelayNumber),
            Class::OpenParen => Some(Rule::DelayExpression),
            _ => Some(Rule::DelayName),
        },
        Kind::NetAssignment => Some(Rule::NetAssigned),
        Kind::MoreNetAssignments => match next {
            Class::Comma => Some(Rule::NextNetAssignment),
            _ => Some(Rule::NoMoreNetAssignment),
        },
        Kind::ParameterValues => match next {
            Class::Hash => Some(Rule::SomeParameterValues),
            _ => Some(Rule::NoParameterValue),
        },
        Kind::ParameterList => match next {
            Class::Dot => Some(Rule::NamedParameters),
            _ => Some(Rule::OrderedParameters),
        },
        Kind::ModuleInstance => Some(Rule::InstanceOfModule),
        Kind::MoreModuleInstances => match next {
            Class::Comma => Some(Rule::NextModuleInstance),
            _ => Some(Rule::NoMoreModuleInstance),
        },
        Kind::Connections => match next {
            Class::Dot => Some(Rule::NamedConnections),
            _ => Some(Rule::OrderedConnections),
        },
        Kind::NamedConnection => Some(Rule::ConnectionByName),
        Kind::MoreNamedConnections => match next {
            Class::Comma => Some(Rule::NextNamedConnection),
            _ => Some(Rule::NoMoreNamedConnection),
        },
        Kind::MoreOrderedConnections => match next {
            Class::Comma => Some(Rule::NextOrderedConnection),
            _ => Some(Rule::NoMoreOrderedConnection),
        },
        Kind::ExpressionPart => match next {
            Class::CloseParen | Class::Comma => Some(Rule::NoExpression),
            _ => Some(Rule::SomeExpression),
        },
        Kind::MoreExpressions => match next {
            Class::Comma => Some(Rule::NextExpression),
            _ => Some(Rule::NoMoreExpression),
        },
        Kind::Statement => Some(Rule::StatementWithAttributes),
        Kind::StatementItem => match next {
            Class::Name | Class::SystemVerilog | Class::OpenBrace => Some(Rule::Assignment),
            Class::System => Some(Rule::SystemTaskEnable),
            Class::UnaryFunction => Some(Rule::UnaryFunctionEnable),
            Class::Semicolon => Some(Rule::NullStatement),
            Class::Hash => Some(Rule::DelayControlStatement),
            Class::For => Some(Rule::ForStatement),
            Class::If => Some(Rule::ConditionalStatement),
            Class::Begin => Some(Rule::SeqBlock),
            Class::While => Some(Rule::WhileStatement),
            Class::Repeat => Some(Rule::RepeatStatement),
            Class::Forever => Some(Rule::ForeverStatement),
            Class::At => Some(Rule::EventControlStatement),
            _ => Some(Rule::CaseStatement),
        },
        Kind::AssignmentOperator => match next {
            Class::Equals => Some(Rule::Blocking),
            Class::LessEqual => Some(Rule::Nonblocking),
            _ => None,
        },
        Kind::Statements => match next {
            Class::End => Some(Rule::NoStatement),
            _ => Some(Rule::MoreStatements),
        },
        Kind::ElsePart => match next {
            Class::Else => Some(Rule::SomeElse),
            _ => Some(Rule::NoElse),
        },
        Kind::CaseKeyword => match next {
            Class::Case => Some(Rule::CaseExact),
            Class::CaseZ => Some(Rule::CaseZ),
            Class::CaseX => Some(Rule::CaseX),
            _ => None,
        },
        Kind::CaseItems => match next {
            Class::Default => Some(Rule::FirstDefault),
            _ => Some(Rule::FirstCaseItem),
        },
        Kind::MoreCaseItems => match next {
            Class::EndCase => Some(Rule::NoMoreCaseItem),
            Class::Default => Some(Rule::NextDefault),
            _ => Some(Rule::NextCaseItem),
        },
        Kind::LabelledItems => match next {
            Class::EndCase => Some(Rule::NoLabelledItem),
            _ => Some(Rule::NextLabelledItem),
        },
        Kind::CaseItem => Some(Rule::LabelledCaseItem),
        Kind::DefaultItem => Some(Rule::DefaultCaseItem),
        Kind::ColonPart => match next {
            Class::Colon => Some(Rule::SomeColon),
            _ => Some(Rule::NoColon),
        },
        Kind::EventControl => match next {
            Class::OpenParen => Some(Rule::EventInParens),
            Class::Star => Some(Rule::EventAny),
            _ => Some(Rule::EventIdentifier),
        },
        Kind::EventExpressions => match next {
            Class::Star => Some(Rule::EventAnyInParens),
            _ => Some(Rule::EventList),
        },
        Kind::EventExpression => match next {
            Class::Posedge => Some(Rule::PosedgeEvent),
            Class::Negedge => Some(Rule::NegedgeEvent),
            _ => Some(Rule::PlainEvent),
        },
        Kind::MoreEventExpressions => match next {
            Class::Or => Some(Rule::OrEvent),
            Class::Comma => Some(Rule::CommaEvent),
            _ => Some(Rule::NoMoreEvent),
        },
        Kind::TaskArguments => match next {
            Class::OpenParen => Some(Rule::SomeTaskArguments),
            _ => Some(Rule::NoTaskArguments),
        },
        Kind::TaskArgumentList => match next {
            Class::CloseParen => Some(Rule::NoTaskArgument),
            _ => Some(Rule::FirstTaskArgument),
        },
        Kind::MoreTaskArguments => match next {
            Class::Comma => Some(Rule::NextTaskArgument),
            _ => Some(Rule::NoMoreTaskArgument),
        },
        Kind::TaskArgument => match next {
            Class::String => Some(Rule::StringArgument),
            _ => Some(Rule::ExpressionArgument),
        },
        Kind::LeftSide => match next {
            Class::OpenBrace => Some(Rule::LeftConcatenation),
            _ => Some(Rule::LeftName),
        },
        Kind::MoreLeftSides => match next {
            Class::Comma => Some(Rule::NextLeftSide),
            _ => Some(Rule::NoMoreLeftSide),
        },
        Kind::SelectPart => match next {
            Class::OpenBracket => Some(Rule::SomeSelect),
            _ => Some(Rule::NoSelect),
        },
        Kind::SelectEnd => match next {
            Class::Colon => Some(Rule::PartSelect),
            Class::CloseBracket => Some(Rule::BitSelect),
            Class::PlusColon => Some(Rule::IndexedPartSelect),
            _ => None,
        },
        Kind::Expression => Some(Rule::OperandWithChains),
        Kind::PowerChain => match next {
            Class::Power => Some(Rule::Power),
            _ => Some(Rule::NoPower),
        },
        Kind::ProductChain => match next {
            Class::Star => Some(Rule::Times),
            Class::Slash => Some(Rule::Divide),
            Class::Percent => Some(Rule::Remainder),
            _ => Some(Rule::NoProduct),
        },
        Kind::SumChain => match next {
            Class::Plus => Some(Rule::Plus),
            Class::Minus => Some(Rule::Minus),
            _ => Some(Rule::NoSum),
        },
        Kind::ShiftChain => match next {
            Class::ShiftLeft => Some(Rule::ShiftLeft),
            Class::ShiftRight => Some(Rule::ShiftRight),
            Class::ShiftLeftSigned => Some(Rule::ShiftLeftSigned),
            Class::ShiftRightSigned => Some(Rule::ShiftRightSigned),
            _ => Some(Rule::NoShift),
        },
        Kind::RelationChain => match next {
            Class::LessEqual => Some(Rule::LessEqual),
            Class::Less => Some(Rule::Less),
            Class::Greater => Some(Rule::Greater),
            Class::GreaterEqual => Some(Rule::GreaterEqual),
            _ => Some(Rule::NoRelation),
        },
        Kind::EqualityChain => match next {
            Class::Equal => Some(Rule::Equal),
            Class::Unequal => Some(Rule::Unequal),
            Class::CaseEqual => Some(Rule::CaseEqual),
            Class::CaseUnequal => Some(Rule::CaseUnequal),
            _ => Some(Rule::NoEquality),
        },
        Kind::AndChain => match next {
            Class::And => Some(Rule::BitAnd),
            _ => Some(Rule::NoAnd),
        },
        Kind::XorChain => match next {
            Class::Xor => Some(Rule::BitXor),
            Class::Xnor => Some(Rule::BitXnor),
            _ => Some(Rule::NoXor),
        },
        Kind::OrChain => match next {
            Class::Bar => Some(Rule::BitOr),
            _ => Some(Rule::NoOr),
        },
        Kind::LogicalAndChain => match next {
            Class::LogicalAnd => Some(Rule::LogicalAnd),
            _ => Some(Rule::NoLogicalAnd),
        },
        Kind::LogicalOrChain => match next {
            Class::LogicalOr => Some(Rule::LogicalOr),
            _ => Some(Rule::NoLogicalOr),
        },
        Kind::ConditionPart => match next {
            Class::Question => Some(Rule::SomeCondition),
            _ => Some(Rule::NoCondition),
        },
        Kind::Operand => match next {
            Class::Number => Some(Rule::NumberOperand),
            Class::System => Some(Rule::SystemFunctionCall),
            Class::UnaryFunction => Some(Rule::UnaryFunctionCall),
            Class::OpenParen => Some(Rule::Parenthesized),
            Class::OpenBrace => Some(Rule::Braces),
            Class::Plus => Some(Rule::UnaryPlus),
            Class::Minus => Some(Rule::UnaryMinus),
            Class::And => Some(Rule::ReductionAnd),
            Class::Xor => Some(Rule::ReductionXor),
            Class::Xnor => Some(Rule::ReductionXnor),
            Class::Bar => Some(Rule::ReductionOr),
            Class::Not => Some(Rule::LogicalNot),
            Class::Tilde => Some(Rule::BitNot),
            Class::Nand => Some(Rule::ReductionNand),
            Class::Nor => Some(Rule::ReductionNor),
            _ => Some(Rule::NameOperand),
        },
        Kind::FunctionArguments => match next {
            Class::OpenParen => Some(Rule::SomeFunctionArguments),
            _ => Some(Rule::NoFunctionArguments),
        },
        Kind::BraceEnd => match next {
            Class::OpenBrace => Some(Rule::Replication),
            _ => Some(Rule::Concatenation),
        },
    }
}
