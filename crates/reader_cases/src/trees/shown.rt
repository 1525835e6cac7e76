//! Trees as S-expressions.
use case_lines::Page;
use vlog_syntax::{
    Argument, Assignment, BinaryOperator, CaseItem, CaseKind, Connections, DataType, DeclaredName,
    Delay, Direction, Edge, EventControl, EventExpression, Expr, Identifier, Instance, Item,
    LeftSide, Module, NamedConnection, Number, ParameterDeclaration, ParameterKind, ParameterType,
    ParameterValues, PlainItem, PortDeclaration, Ports, ProcessKind, Range, Stmt, UnaryOperator,
    VectorType,
};

/// Width, sign and value, and the bits that are x and z where there are some.
fn number(page: &mut Page, number: &Number) {
    page.put_number(number.value.width().into());
    page.put(if number.is_signed { "'s" } else { "'" });
    page.put_number(number.value.bits());
    if number.x_bits > 0 || number.z_bits > 0 {
        page.put("x");
        page.put_number(number.x_bits);
        page.put("z");
        page.put_number(number.z_bits);
    }
}

fn name(page: &mut Page, name: &Identifier) {
    page.put(" ");
    page.put(name.name.as_str())
}

fn unary(operator: UnaryOperator) -> &'static str {
    match operator {
        UnaryOperator::Plus => "+",
        UnaryOperator::Minus => "-",
        UnaryOperator::LogicalNot => "!",
        UnaryOperator::BitwiseNot => "~",
        UnaryOperator::ReductionAnd => "&",
        UnaryOperator::ReductionNand => "~&",
        UnaryOperator::ReductionOr => "|",
        UnaryOperator::ReductionNor => "~|",
        UnaryOperator::ReductionXor => "^",
        UnaryOperator::ReductionXnor => "~^",
    }
}

fn binary(operator: BinaryOperator) -> &'static str {
    match operator {
        BinaryOperator::Power => "**",
        BinaryOperator::Multiply => "*",
        BinaryOperator::Divide => "/",
        BinaryOperator::Modulus => "%",
        BinaryOperator::Add => "+",
        BinaryOperator::Subtract => "-",
        BinaryOperator::LogicalShiftLeft => "<<",
        BinaryOperator::LogicalShiftRight => ">>",
        BinaryOperator::ArithmeticShiftLeft => "<<<",
        BinaryOperator::ArithmeticShiftRight => ">>>",
        BinaryOperator::Less => "<",
        BinaryOperator::LessEqual => "<=",
        BinaryOperator::Greater => ">",
        BinaryOperator::GreaterEqual => ">=",
        BinaryOperator::LogicalEquality => "==",
        BinaryOperator::LogicalInequality => "!=",
        BinaryOperator::CaseEquality => "===",
        BinaryOperator::CaseInequality => "!==",
        BinaryOperator::BitwiseAnd => "&",
        BinaryOperator::BitwiseXor => "^",
        BinaryOperator::BitwiseXnor => "^~",
        BinaryOperator::BitwiseOr => "|",
        BinaryOperator::LogicalAnd => "&&",
        BinaryOperator::LogicalOr => "||",
    }
}

#[cycle(show)]
pub fn expr(page: &mut Page, tree: &Expr) {
    page.put(" ");
    match tree {
        Expr::Number(n) => return number(page, n),
        Expr::Name(n) => return page.put(n.name.as_str()),
        Expr::BitSelect(n, _, index) => {
            page.put("([]");
            name(page, n);
            expr(page, index.get());
        }
        Expr::PartSelect(n, _, msb, lsb) => {
            page.put("([:]");
            name(page, n);
            expr(page, msb.get());
            expr(page, lsb.get());
        }
        Expr::IndexedPartSelect(n, _, base, width) => {
            page.put("([+:]");
            name(page, n);
            expr(page, base.get());
            expr(page, width.get());
        }
        Expr::Parenthesized(_, inner) => {
            page.put("(()");
            expr(page, inner.get());
        }
        Expr::Unary(_, operator, operand) => {
            page.put("(");
            page.put(unary(*operator));
            expr(page, operand.get());
        }
        Expr::Binary(_, operator, left, right) => {
            page.put("(");
            page.put(binary(*operator));
            expr(page, left.get());
            expr(page, right.get());
        }
        Expr::Conditional(_, condition, yes, no) => {
            page.put("(?");
            expr(page, condition.get());
            expr(page, yes.get());
            expr(page, no.get());
        }
        Expr::Concatenation(_, parts) => {
            page.put("({}");
            exprs(page, parts.as_slice());
        }
        Expr::MultipleConcatenation(_, count, parts) => {
            page.put("({{}}");
            expr(page, count.get());
            exprs(page, parts.as_slice());
        }
        Expr::SystemFunctionCall(n, arguments) => {
            page.put("(");
            page.put(n.name.as_str());
            exprs(page, arguments.as_slice());
        }
    }
    page.put(")");
}

#[cycle(show)]
fn exprs(page: &mut Page, trees: &[Expr]) {
    for tree in trees {
        expr(page, tree);
    }
}

#[cycle(show_left)]
fn left(page: &mut Page, tree: &LeftSide) {
    page.put(" ");
    match tree {
        LeftSide::Name(n) => return page.put(n.name.as_str()),
        LeftSide::BitSelect(n, _, index) => {
            page.put("([]");
            name(page, n);
            expr(page, index.get());
        }
        LeftSide::PartSelect(n, _, msb, lsb) => {
            page.put("([:]");
            name(page, n);
            expr(page, msb.get());
            expr(page, lsb.get());
        }
        LeftSide::IndexedPartSelect(n, _, base, width) => {
            page.put("([+:]");
            name(page, n);
            expr(page, base.get());
            expr(page, width.get());
        }
        LeftSide::Concatenation(_, parts) => {
            page.put("({}");
            lefts(page, parts.as_slice());
        }
    }
    page.put(")");
}

#[cycle(show_left)]
fn lefts(page: &mut Page, trees: &[LeftSide]) {
    for tree in trees {
        left(page, tree);
    }
}

fn assignment(page: &mut Page, sign: &str, tree: &Assignment) {
    page.put(" (");
    page.put(sign);
    left(page, &tree.left);
    expr(page, tree.value.get());
    page.put(")");
}

fn events(page: &mut Page, list: &[EventExpression]) {
    for event in list {
        match event.edge {
            Edge::Any => (),
            Edge::Posedge => page.put(" posedge"),
            Edge::Negedge => page.put(" negedge"),
        }
        name(page, &event.name);
    }
}

fn arguments(page: &mut Page, list: &[Argument]) {
    for argument in list {
        match argument {
            Argument::String(text, _) => {
                page.put(" \"");
                for byte in text.as_slice() {
                    page.put_byte(*byte);
                }
                page.put("\"");
            }
            Argument::Expr(tree) => expr(page, tree.get()),
        }
    }
}

fn label(page: &mut Page, name: &Option<Identifier>) {
    if let Some(name) = name {
        page.put(":");
        page.put(name.name.as_str());
    }
}

#[cycle(show_stmt)]
pub fn stmt(page: &mut Page, tree: &Stmt) {
    match tree {
        Stmt::Null(_) => return page.put(" ;"),
        Stmt::BlockingAssignment(tree) => return assignment(page, "=", tree),
        Stmt::NonblockingAssignment(tree) => return assignment(page, "<=", tree),
        Stmt::SeqBlock(_, name, body) => {
            page.put(" (begin");
            label(page, name);
            stmts(page, body.as_slice());
        }
        Stmt::Conditional(_, condition, yes, no) => {
            page.put(" (if");
            expr(page, condition.get());
            stmt(page, yes.get());
            if let Some(no) = no {
                page.put(" else");
                stmt(page, no.get());
            }
        }
        Stmt::Case(_, kind, selector, items) => {
            page.put(match kind {
                CaseKind::Case => " (case",
                CaseKind::Casez => " (casez",
                CaseKind::Casex => " (casex",
            });
            expr(page, selector.get());
            case_items(page, items.as_slice());
        }
        Stmt::For(_, start, condition, step, body) => {
            page.put(" (for");
            assignment(page, "=", start);
            expr(page, condition.get());
            assignment(page, "=", step);
            stmt(page, body.get());
        }
        Stmt::While(_, condition, body) => {
            page.put(" (while");
            expr(page, condition.get());
            stmt(page, body.get());
        }
        Stmt::Repeat(_, count, body) => {
            page.put(" (repeat");
            expr(page, count.get());
            stmt(page, body.get());
        }
        Stmt::Forever(_, body) => {
            page.put(" (forever");
            stmt(page, body.get());
        }
        Stmt::EventControl(_, control, body) => {
            match control {
                EventControl::Implicit => page.put(" (@ *"),
                EventControl::List(list) => {
                    page.put(" (@");
                    events(page, list.as_slice());
                }
            }
            stmt(page, body.get());
        }
        Stmt::DelayControl(_, delay, body) => {
            page.put(" (#");
            expr(page, delay.get());
            stmt(page, body.get());
        }
        Stmt::SystemTaskEnable(name, list) => {
            page.put(" (");
            page.put(name.name.as_str());
            arguments(page, list.as_slice());
        }
    }
    page.put(")");
}

#[cycle(show_stmt)]
fn stmts(page: &mut Page, trees: &[Stmt]) {
    for tree in trees {
        stmt(page, tree);
    }
}

#[cycle(show_stmt)]
fn case_items(page: &mut Page, items: &[CaseItem]) {
    for item in items {
        page.put(" (");
        exprs(page, item.labels.as_slice());
        page.put(" :");
        stmt(page, item.body.get());
        page.put(")");
    }
}

fn range(page: &mut Page, range: &Option<Range>) {
    if let Some(range) = range {
        page.put(" ([:]");
        expr(page, range.msb.get());
        expr(page, range.lsb.get());
        page.put(")");
    }
}

fn vector(page: &mut Page, vector: &VectorType) {
    if vector.is_signed {
        page.put(" signed");
    }
    range(page, &vector.range)
}

fn data_type(page: &mut Page, data_type: &DataType) {
    match data_type {
        DataType::Wire(list) => {
            page.put(" wire");
            vector(page, list)
        }
        DataType::Reg(list) => {
            page.put(" reg");
            vector(page, list)
        }
        DataType::Integer => page.put(" integer"),
    }
}

fn names(page: &mut Page, list: &[DeclaredName]) {
    for declared in list {
        match &declared.initial {
            None => name(page, &declared.name),
            Some(value) => {
                page.put(" (=");
                name(page, &declared.name);
                expr(page, value.get());
                page.put(")");
            }
        }
    }
}

fn port(page: &mut Page, port: &PortDeclaration) {
    page.put(match port.direction {
        Direction::Input => " (input",
        Direction::Output => " (output",
    });
    data_type(page, &port.data_type);
    names(page, port.names.as_slice());
    page.put(")");
}

fn parameters(page: &mut Page, tree: &ParameterDeclaration) {
    page.put(match tree.kind {
        ParameterKind::Parameter => " (parameter",
        ParameterKind::Localparam => " (localparam",
    });
    match &tree.data_type {
        ParameterType::Vector(list) => vector(page, list),
        ParameterType::Integer => page.put(" integer"),
    }
    for assignment in tree.assignments.as_slice() {
        page.put(" (=");
        name(page, &assignment.name);
        expr(page, assignment.value.get());
        page.put(")");
    }
    page.put(")");
}

fn named(page: &mut Page, list: &[NamedConnection]) {
    for connection in list {
        page.put(" (.");
        page.put(connection.name.name.as_str());
        if let Some(value) = &connection.value {
            expr(page, value.get());
        }
        page.put(")");
    }
}

fn instance(page: &mut Page, tree: &Instance) {
    page.put(" (");
    page.put(tree.name.name.as_str());
    match &tree.ports {
        Connections::Ordered(list) => {
            for value in list.as_slice() {
                match value {
                    Some(value) => expr(page, value.get()),
                    None => page.put(" _"),
                }
            }
        }
        Connections::Named(list) => named(page, list.as_slice()),
    }
    page.put(")");
}

fn assign(page: &mut Page, delay: &Option<Delay>, list: &[Assignment]) {
    page.put(" (assign");
    if let Some(delay) = delay {
        page.put(" (#");
        expr(page, delay.value.get());
        page.put(")");
    }
    for tree in list {
        assignment(page, "=", tree);
    }
    page.put(")");
}

fn plain(page: &mut Page, tree: &PlainItem) {
    match tree {
        PlainItem::PortDeclaration(tree) => return port(page, tree),
        PlainItem::ParameterDeclaration(tree) => return parameters(page, tree),
        PlainItem::ContinuousAssign(_, delay, list) => return assign(page, delay, list.as_slice()),
        PlainItem::DataDeclaration(tree) => {
            page.put(" (declare");
            data_type(page, &tree.data_type);
            names(page, tree.names.as_slice());
        }
        PlainItem::GenvarDeclaration(_, list) => {
            page.put(" (genvar");
            names(page, list.as_slice());
        }
        PlainItem::Process(process) => {
            page.put(match process.kind {
                ProcessKind::Initial => " (initial",
                ProcessKind::Always => " (always",
            });
            stmt(page, process.body.get());
        }
        PlainItem::ModuleInstantiation(module, values, list) => {
            page.put(" (instance");
            name(page, module);
            match values {
                ParameterValues::Ordered(list) => exprs(page, list.as_slice()),
                ParameterValues::Named(list) => named(page, list.as_slice()),
            }
            for tree in list.as_slice() {
                instance(page, tree);
            }
        }
    }
    page.put(")");
}

#[cycle(show_item)]
pub fn item(page: &mut Page, tree: &Item) {
    match tree {
        Item::Plain(tree) => return plain(page, tree.get()),
        Item::NullGenerate(_) => return page.put(" ;"),
        Item::GenerateRegion(_, list) => {
            page.put(" (generate");
            items(page, list.as_slice());
        }
        Item::LoopGenerate(head, block) => {
            page.put(" (for");
            name(page, &head.name);
            expr(page, head.start.get());
            expr(page, head.condition.get());
            name(page, &head.step_name);
            expr(page, head.step.get());
            item(page, block.get());
        }
        Item::IfGenerate(_, condition, yes, no) => {
            page.put(" (if");
            expr(page, condition.get());
            item(page, yes.get());
            if let Some(no) = no {
                page.put(" else");
                item(page, no.get());
            }
        }
        Item::GenerateBlock(_, name, list) => {
            page.put(" (begin");
            label(page, name);
            items(page, list.as_slice());
        }
    }
    page.put(")");
}

#[cycle(show_item)]
fn items(page: &mut Page, trees: &[Item]) {
    for tree in trees {
        item(page, tree);
    }
}

/// A module, without the blank before it.
pub fn module(page: &mut Page, tree: &Module) {
    page.put("(module ");
    page.put(tree.name.as_str());
    for declaration in tree.parameters.as_slice() {
        parameters(page, declaration);
    }
    page.put(" (ports");
    match &tree.ports {
        Ports::Names(list) => {
            for identifier in list.as_slice() {
                name(page, identifier);
            }
        }
        Ports::Declarations(list) => {
            for declaration in list.as_slice() {
                port(page, declaration);
            }
        }
    }
    page.put(")");
    items(page, tree.items.as_slice());
    page.put(")");
}
