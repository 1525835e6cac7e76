//! The names of cell kinds.
use netlist_core::CellKind;

/// The kind of this name.
pub(crate) fn kind_of(name: &str) -> Option<CellKind> {
    match name {
        "not" => Some(CellKind::Not),
        "neg" => Some(CellKind::Neg),
        "and" => Some(CellKind::And),
        "or" => Some(CellKind::Or),
        "xor" => Some(CellKind::Xor),
        "xnor" => Some(CellKind::Xnor),
        "add" => Some(CellKind::Add),
        "sub" => Some(CellKind::Sub),
        "mul" => Some(CellKind::Mul),
        "lt" => Some(CellKind::Lt),
        "le" => Some(CellKind::Le),
        "gt" => Some(CellKind::Gt),
        "ge" => Some(CellKind::Ge),
        "eq" => Some(CellKind::Eq),
        "ne" => Some(CellKind::Ne),
        "shl" => Some(CellKind::Shl),
        "shr" => Some(CellKind::Shr),
        "sshr" => Some(CellKind::Sshr),
        _ => other_kind_of(name),
    }
}

/// The kind of this name, of those whose ports differ in width.
fn other_kind_of(name: &str) -> Option<CellKind> {
    match name {
        "rand" => Some(CellKind::Rand),
        "ror" => Some(CellKind::Ror),
        "rxor" => Some(CellKind::Rxor),
        "rnand" => Some(CellKind::Rnand),
        "rnor" => Some(CellKind::Rnor),
        "rxnor" => Some(CellKind::Rxnor),
        "lnot" => Some(CellKind::Lnot),
        "land" => Some(CellKind::Land),
        "lor" => Some(CellKind::Lor),
        "mux" => Some(CellKind::Mux),
        "pick" => Some(CellKind::Pick),
        "put" => Some(CellKind::Put),
        _ => None,
    }
}
