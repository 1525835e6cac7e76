//! The classes of names and symbols, looked up by length and text.
ghost use Rattle.std.specs.Prelude.{◌≡◌, ℕ, List, map};
ghost use Rattle.vlog_parse.specs.Words.{words, symbols, functions, lookup, plain, word_class, symbol_class, system_class};

use vlog_grammar::Class;

/// The reserved words of a length (IEEE 1364-2005, Annex B), and six of SystemVerilog.
fn words(len: usize) -> &'static [(&'static str, Class)]
    ensures { map plain result.now ≡ words len }
{
    match len {
        2 => &[("if", Class::If), ("or", Class::Or)],
        3 => &[
            ("and", Class::Primitive),
            ("buf", Class::Primitive),
            ("end", Class::End),
            ("for", Class::For),
            ("nor", Class::Primitive),
            ("not", Class::Primitive),
            ("reg", Class::Reg),
            ("tri", Class::NetKind),
            ("use", Class::Other),
            ("wor", Class::NetKind),
            ("xor", Class::Primitive),
        ],
        4 => &[
            ("case", Class::Case),
            ("cell", Class::Other),
            ("cmos", Class::Primitive),
            ("edge", Class::Other),
            ("else", Class::Else),
            ("fork", Class::Other),
            ("join", Class::Other),
            ("nand", Class::Primitive),
            ("nmos", Class::Primitive),
            ("pmos", Class::Primitive),
            ("real", Class::RealOrTime),
            ("task", Class::Task),
            ("time", Class::RealOrTime),
            ("tran", Class::Primitive),
            ("tri0", Class::NetKind),
            ("tri1", Class::NetKind),
            ("wait", Class::Other),
            ("wand", Class::NetKind),
            ("wire", Class::Wire),
            ("xnor", Class::Primitive),
        ],
        5 => &[
            ("begin", Class::Begin),
            ("casex", Class::CaseX),
            ("casez", Class::CaseZ),
            ("event", Class::Other),
            ("force", Class::Other),
            ("inout", Class::Inout),
            ("input", Class::Input),
            ("large", Class::Other),
            ("logic", Class::SystemVerilog),
            ("pull0", Class::Other),
            ("pull1", Class::Other),
            ("rcmos", Class::Primitive),
            ("rnmos", Class::Primitive),
            ("rpmos", Class::Primitive),
            ("rtran", Class::Primitive),
            ("small", Class::Other),
            ("table", Class::Other),
            ("trior", Class::NetKind),
            ("uwire", Class::Other),
            ("weak0", Class::Other),
            ("weak1", Class::Other),
            ("while", Class::While),
        ],
        6 => &[
            ("always", Class::Always),
            ("assign", Class::Assign),
            ("bufif0", Class::Primitive),
            ("bufif1", Class::Primitive),
            ("config", Class::Other),
            ("design", Class::Other),
            ("genvar", Class::Genvar),
            ("highz0", Class::Other),
            ("highz1", Class::Other),
            ("ifnone", Class::Other),
            ("incdir", Class::Other),
            ("medium", Class::Other),
            ("module", Class::Module),
            ("notif0", Class::Primitive),
            ("notif1", Class::Primitive),
            ("output", Class::Output),
            ("pullup", Class::Primitive),
            ("repeat", Class::Repeat),
            ("signed", Class::Signed),
            ("triand", Class::NetKind),
            ("trireg", Class::NetKind),
        ],
        7 => &[
            ("default", Class::Default),
            ("disable", Class::Other),
            ("endcase", Class::EndCase),
            ("endtask", Class::Other),
            ("forever", Class::Forever),
            ("include", Class::Other),
            ("initial", Class::Initial),
            ("integer", Class::Integer),
            ("liblist", Class::Other),
            ("library", Class::Other),
            ("negedge", Class::Negedge),
            ("package", Class::SystemVerilog),
            ("posedge", Class::Posedge),
            ("release", Class::Other),
            ("specify", Class::Specify),
            ("strong0", Class::Other),
            ("strong1", Class::Other),
            ("supply0", Class::NetKind),
            ("supply1", Class::NetKind),
            ("tranif0", Class::Primitive),
            ("tranif1", Class::Primitive),
        ],
        8 => &[
            ("deassign", Class::Other),
            ("defparam", Class::Defparam),
            ("endtable", Class::Other),
            ("function", Class::Function),
            ("generate", Class::Generate),
            ("instance", Class::Other),
            ("pulldown", Class::Primitive),
            ("realtime", Class::RealOrTime),
            ("rtranif0", Class::Primitive),
            ("rtranif1", Class::Primitive),
            ("scalared", Class::Other),
            ("unsigned", Class::Other),
            ("vectored", Class::Other),
        ],
        9 => &[
            ("always_ff", Class::SystemVerilog),
            ("automatic", Class::Other),
            ("endconfig", Class::Other),
            ("endmodule", Class::EndModule),
            ("interface", Class::SystemVerilog),
            ("parameter", Class::Parameter),
            ("primitive", Class::Primitive),
            ("specparam", Class::Other),
        ],
        10 => &[
            ("endspecify", Class::Other),
            ("localparam", Class::Localparam),
        ],
        11 => &[
            ("always_comb", Class::SystemVerilog),
            ("endfunction", Class::Other),
            ("endgenerate", Class::EndGenerate),
            ("macromodule", Class::Other),
        ],
        12 => &[
            ("always_latch", Class::SystemVerilog),
            ("endprimitive", Class::Other),
        ],
        13 => &[("showcancelled", Class::Other)],
        15 => &[("noshowcancelled", Class::Other)],
        18 => &[("pulsestyle_onevent", Class::Other)],
        19 => &[("pulsestyle_ondetect", Class::Other)],
        _ => &[],
    }
}

/// The symbols of a length.
fn symbols(len: usize) -> &'static [(&'static str, Class)]
    ensures { map plain result.now ≡ symbols len }
{
    match len {
        1 => &[
            (";", Class::Semicolon),
            ("(", Class::OpenParen),
            (")", Class::CloseParen),
            (",", Class::Comma),
            ("=", Class::Equals),
            ("[", Class::OpenBracket),
            ("]", Class::CloseBracket),
            (":", Class::Colon),
            (".", Class::Dot),
            ("@", Class::At),
            ("*", Class::Star),
            ("+", Class::Plus),
            ("-", Class::Minus),
            ("&", Class::And),
            ("|", Class::Bar),
            ("^", Class::Xor),
            ("~", Class::Tilde),
            ("!", Class::Not),
            ("<", Class::Less),
            (">", Class::Greater),
            ("?", Class::Question),
            ("{", Class::OpenBrace),
            ("}", Class::CloseBrace),
            ("#", Class::Hash),
            ("/", Class::Slash),
            ("%", Class::Percent),
        ],
        2 => &[
            ("<=", Class::LessEqual),
            ("+:", Class::PlusColon),
            ("**", Class::Power),
            ("<<", Class::ShiftLeft),
            (">>", Class::ShiftRight),
            (">=", Class::GreaterEqual),
            ("==", Class::Equal),
            ("!=", Class::Unequal),
            ("^~", Class::Xnor),
            ("~^", Class::Xnor),
            ("&&", Class::LogicalAnd),
            ("||", Class::LogicalOr),
            ("~&", Class::Nand),
            ("~|", Class::Nor),
        ],
        3 => &[
            ("<<<", Class::ShiftLeftSigned),
            (">>>", Class::ShiftRightSigned),
            ("===", Class::CaseEqual),
            ("!==", Class::CaseUnequal),
        ],
        _ => &[],
    }
}

/// The class that a table has for a text.
fn lookup(table: &[(&str, Class)], text: &str) -> Option<Class>
    ensures { result ≡ lookup (map plain table.now) text.now }
{
    for (word, class) in table {
        if *word == text {
            return Some(*class);
        }
    }
    None
}

/// The class of a name.
pub fn word_class(text: &str) -> Class
    ensures { result ≡ word_class text.now }
{
    lookup(words(text.len()), text).unwrap_or(Class::Name)
}

/// The class of a symbol.
pub fn symbol_class(text: &str) -> Class
    ensures { result ≡ symbol_class text.now }
{
    lookup(symbols(text.len()), text).unwrap_or(Class::Other)
}

/// The system functions of one argument.
fn functions() -> &'static [(&'static str, Class)]
    ensures { map plain result.now ≡ functions }
{
    &[
        ("$signed", Class::UnaryFunction),
        ("$unsigned", Class::UnaryFunction),
        ("$clog2", Class::UnaryFunction),
    ]
}

/// The class of the name of a system task or function.
pub fn system_class(text: &str) -> Class
    ensures { result ≡ system_class text.now }
{
    lookup(functions(), text).unwrap_or(Class::System)
}
