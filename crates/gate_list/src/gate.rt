//! Gates.

/// A gate over literals of variables, which stand before it.
#[derive(Clone, Copy, Debug, PartialEq, Eq, Hash)]
pub enum Gate {
    And { a: i32, b: i32 },
    Xor { a: i32, b: i32 },
    /// `a` where `s` is 0, and `b` where it is 1.
    Mux { s: i32, a: i32, b: i32 },
}
