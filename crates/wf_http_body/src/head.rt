// Where a head may end.
ghost use Rattle.std.specs.Prelude.{◌<◌, ◌≤◌, length};

/// How many bytes of a piece may belong to a head, of which some were heard before: those to the
/// first empty line behind another line, or all. Where a head ends is for its parser to say; that no
/// more of the piece is looked at spares a copy of the body.
pub fn head_length(before: &[u8], piece: &[u8]) -> usize
    ensures some { 0 < length piece.now → 0 < result }
    ensures within { result ≤ length piece.now }
{
    let mut lines = Lines {
        has_begun: false,
        is_empty: false,
    };
    for byte in before {
        lines = lines.with(*byte);
    }
    for i in 0..piece.len() {
        if piece[i] == b'\n' && lines.is_empty && lines.has_begun {
            return i + 1;
        }
        lines = lines.with(piece[i]);
    }
    piece.len()
}

/// What was heard of lines.
#[derive(Clone, Copy)]
struct Lines {
    // Whether one isn't empty.
    has_begun: bool,
    // Whether a line has begun of which nothing was heard but CR.
    is_empty: bool,
}

impl Lines {
    /// With one byte more.
    fn with(self, byte: u8) -> Lines {
        match byte {
            b'\n' => Lines {
                is_empty: true,
                ..self
            },
            b'\r' => self,
            _ => Lines {
                has_begun: true,
                is_empty: false,
            },
        }
    }
}
