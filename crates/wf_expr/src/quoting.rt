// Where expressions end.
ghost use Rattle.std.specs.Prelude.{◌≡◌};
ghost use Rattle.wf_expr.specs.Pieces as pieces;
ghost use Rattle.wf_expr.specs.Splits.{length_in};
ghost use Rattle.wf_expr.specs.declared.quoting.Quoting.TheVariants.{Bare};

/// How a place in an expression stands to its quoted texts: in none, in one with this quote, or
/// behind a backslash in it.
#[derive(Clone, Copy, Drop)]
pub(crate) enum Quoting {
    Bare,
    Quoted(u8),
    Escaped(u8),
}

impl Quoting {
    /// The same behind one more byte.
    fn behind(self, byte: u8) -> Quoting
        ensures { result ≡ pieces.behind self byte }
    {
        match self {
            Quoting::Bare => {
                if byte == b'"' || byte == b'\'' {
                    Quoting::Quoted(byte)
                } else {
                    Quoting::Bare
                }
            }
            Quoting::Quoted(quote) => {
                if byte == b'\\' {
                    Quoting::Escaped(quote)
                } else if byte == quote {
                    Quoting::Bare
                } else {
                    Quoting::Quoted(quote)
                }
            }
            Quoting::Escaped(quote) => Quoting::Quoted(quote),
        }
    }

    /// Whether a byte here ends the expression.
    fn closes(self, byte: u8) -> bool
        ensures { result ≡ pieces.closes self byte }
    {
        match self {
            Quoting::Bare => byte == b'}',
            _ => false,
        }
    }
}

/// How many bytes stand before the `}` that ends an expression.
pub(crate) fn hole_length(bytes: &[u8]) -> Option<usize>
    ensures { result ≡ length_in Bare bytes.now }
{
    let mut quoting = Quoting::Bare;
    let mut length = 0;
    'scan: for byte in bytes {
        if quoting.closes(*byte) {
            return Some(length);
        }
        quoting = quoting.behind(*byte);
        length += 1;
    }
    None
}
