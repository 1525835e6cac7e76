//! The names of cell kinds.
use netlist_core::CellKind;

/// The kind of this name.
pub fn kind_of(name: &str) -> Option<CellKind> {
    match name {
        "not" => Some(CellKind::Not),
        "neg" => Some(CellKind::Neg),
        "and" => Some(CellKind::And),
        "or" => Some(CellKind::Or),
        "xor" => Some(CellKind::Xor),
        "xnor" => Some(CellKind::Xnor),
        _ => arithmetic_kind_of(name),
    }
}

/// The kind of this name, of those of numbers and of the following.
fn arithmetic_kind_of(name: &str) -> Option<CellKind> {
    match name {
        "add" => Some(CellKind::Add),
        "sub" => Some(CellKind::Sub),
        "mul" => Some(CellKind::Mul),
        "shl" => Some(CellKind::Shl),
        "shr" => Some(CellKind::Shr),
        "sshr" => Some(CellKind::Sshr),
        _ => relation_kind_of(name),
    }
}

/// The kind of this name, of relations and of the following.
fn relation_kind_of(name: &str) -> Option<CellKind> {
    match name {
        "lt" => Some(CellKind::Lt),
        "le" => Some(CellKind::Le),
        "gt" => Some(CellKind::Gt),
        "ge" => Some(CellKind::Ge),
        "eq" => Some(CellKind::Eq),
        "ne" => Some(CellKind::Ne),
        _ => reduction_kind_of(name),
    }
}

/// The kind of this name, of reductions and of the following.
fn reduction_kind_of(name: &str) -> Option<CellKind> {
    match name {
        "rand" => Some(CellKind::Rand),
        "ror" => Some(CellKind::Ror),
        "rxor" => Some(CellKind::Rxor),
        "rnand" => Some(CellKind::Rnand),
        "rnor" => Some(CellKind::Rnor),
        "rxnor" => Some(CellKind::Rxnor),
        _ => other_kind_of(name),
    }
}

/// The kind of this name, of those that take truth values or a place.
fn other_kind_of(name: &str) -> Option<CellKind> {
    match name {
        "lnot" => Some(CellKind::Lnot),
        "land" => Some(CellKind::Land),
        "lor" => Some(CellKind::Lor),
        "mux" => Some(CellKind::Mux),
        "pick" => Some(CellKind::Pick),
        "put" => Some(CellKind::Put),
        _ => None,
    }
}
