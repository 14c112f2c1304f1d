// Escapes of URLs (RFC 3986, section 2.1).
use percent_encoding::{AsciiSet, NON_ALPHANUMERIC, ascii_set};

/// The ASCII bytes that are escaped: all but letters, digits and four marks.
pub(crate) const URL: AsciiSet = ascii_set!(
    NON_ALPHANUMERIC
        .remove(b'-')
        .remove(b'.')
        .remove(b'_')
        .remove(b'~')
);
