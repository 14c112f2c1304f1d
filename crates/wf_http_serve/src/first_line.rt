// The first line of a request.
ghost use Rattle.std.specs.Prelude.{◌≡◌};
ghost use Rattle.wf_http_serve.specs.Visits as visits;

/// Whether a line feed stands behind the first byte that is neither CR nor LF.
pub(crate) fn has_first_line(heard: &[u8]) -> bool
    ensures { result ≡ visits.has_first_line heard.now }
{
    let mut has_begun = false;
    for byte in heard {
        if has_begun && *byte == b'\n' {
            return true;
        }
        if *byte != b'\r' && *byte != b'\n' {
            has_begun = true;
        }
    }
    false
}
