//! What the grammar sees of a token.
/// The class of a token: a reserved word, an operator or punctuation of its own, or one of a kind of tokens.
#[derive(Clone, Copy, PartialEq, Eq)]
pub enum Class {
    /// A simple or escaped identifier that is no reserved word.
    Name,
    /// A name that is a reserved word in SystemVerilog: `logic`, `always_ff`, `always_comb`, `always_latch`, `interface`, `package`.
    SystemVerilog,
    Number,
    String,
    /// `$` and a name.
    System,
    /// `$signed`, `$unsigned` or `$clog2`: a system function of one argument.
    UnaryFunction,
    Module,
    /// `;`
    Semicolon,
    EndModule,
    /// `primitive`, or a gate or switch word other than `or`.
    Primitive,
    /// `or`, which is also a gate.
    Or,
    /// `(`
    OpenParen,
    /// A `*` without a gap behind a `(` that stands behind no `@`.
    AttributeStar,
    /// The `)` without a gap behind a `*` of an attribute.
    AttributeEnd,
    /// Any token of an attribute before its last one.
    AttributeText,
    /// `#`
    Hash,
    Parameter,
    /// `)`
    CloseParen,
    /// `,`
    Comma,
    Input,
    Output,
    Reg,
    Integer,
    Generate,
    EndGenerate,
    Wire,
    Genvar,
    Localparam,
    Assign,
    Always,
    Initial,
    For,
    /// `=`
    Equals,
    If,
    Case,
    Begin,
    End,
    Else,
    /// `:`
    Colon,
    Signed,
    /// `[`
    OpenBracket,
    /// `]`
    CloseBracket,
    /// `.`
    Dot,
    EndCase,
    While,
    Repeat,
    Forever,
    /// `@`
    At,
    /// `<=`, the relation and the sign of a nonblocking assignment.
    LessEqual,
    CaseZ,
    CaseX,
    Default,
    /// `*`
    Star,
    Posedge,
    Negedge,
    /// `{`
    OpenBrace,
    /// `}`
    CloseBrace,
    /// `+:`
    PlusColon,
    /// `**`
    Power,
    /// `/`
    Slash,
    /// `%`
    Percent,
    /// `+`
    Plus,
    /// `-`
    Minus,
    /// `<<`
    ShiftLeft,
    /// `>>`
    ShiftRight,
    /// `<<<`
    ShiftLeftSigned,
    /// `>>>`
    ShiftRightSigned,
    /// `<`
    Less,
    /// `>`
    Greater,
    /// `>=`
    GreaterEqual,
    /// `==`
    Equal,
    /// `!=`
    Unequal,
    /// `===`
    CaseEqual,
    /// `!==`
    CaseUnequal,
    /// `&`
    And,
    /// `^`
    Xor,
    /// `^~` or `~^`
    Xnor,
    /// `|`
    Bar,
    /// `&&`
    LogicalAnd,
    /// `||`
    LogicalOr,
    /// `?`
    Question,
    /// `!`
    Not,
    /// `~`
    Tilde,
    /// `~&`
    Nand,
    /// `~|`
    Nor,
    /// A net type other than `wire`.
    NetKind,
    Inout,
    Function,
    Task,
    Specify,
    Defparam,
    /// `real`, `realtime` or `time`.
    RealOrTime,
    /// A token that stands in no production: a reserved word or a symbol that the profile lacks.
    Other,
    /// No token: the end of the text.
    Finish,
}
