//! Symbols: the operators and punctuation of the standard (IEEE 1364-2005, 5.1 and annex A).
//!
//! One byte: `+ - ! ~ & ^ | * / % < > = ? : ( ) [ ] { } ; , . @ #`.
//! Two: `+: -: -> ** *> => == != <= >= << >> && || ~& ~| ~^ ^~`. Three: `=== !== <<< >>> &&&`.
//! `(*` and `*)` are two symbols each.
ghost use Rattle.std.specs.Prelude.{◌≡◌};
ghost use Rattle.vlog_token.specs.Bytes.{is_among};
ghost use Rattle.vlog_token.specs.Reading.{symbol_length};
ghost use Rattle.vlog_token.specs.Symbols.{doubles, seconds, singles};

/// The symbols of one byte, with which all symbols begin.
const SINGLES: &[u8] = b"+-!~&^|*/%<>=?:()[]{};,.@#";

/// What may stand behind the first byte of a symbol of two.
fn seconds(first: u8) -> &'static [u8]
    ensures { result.now ≡ seconds first }
{
    match first {
        b'+' => b":",
        b'-' => b":>",
        b'*' => b"*>",
        b'=' => b"=>",
        b'!' => b"=",
        b'<' => b"=<",
        b'>' => b"=>",
        b'&' => b"&",
        b'|' => b"|",
        b'~' => b"&|^",
        b'^' => b"~",
        _ => b"",
    }
}

/// What stands twice behind the first byte of a symbol of three.
fn doubles(first: u8) -> &'static [u8]
    ensures { result.now ≡ doubles first }
{
    match first {
        b'=' => b"=",
        b'!' => b"=",
        b'<' => b"<",
        b'>' => b">",
        b'&' => b"&",
        _ => b"",
    }
}

fn is_among(bytes: &[u8], b: u8) -> bool
    ensures { result ≡ is_among bytes.now b }
{
    bytes.contains(&b)
}

/// Whether a symbol begins with this byte.
pub fn is_single(first: u8) -> bool
    ensures { result ≡ is_among singles first }
{
    is_among(SINGLES, first)
}

/// The length of the longest symbol at the front.
pub fn symbol_len(bytes: &[u8]) -> usize
    ensures { result ≡ symbol_length bytes.now }
{
    match bytes {
        [a, b, c, ..] => {
            if is_among(doubles(*a), *b) && *c == *b {
                3
            } else if is_among(seconds(*a), *b) {
                2
            } else {
                1
            }
        }
        [a, b] => { if is_among(seconds(*a), *b) { 2 } else { 1 } }
        _ => 1,
    }
}
