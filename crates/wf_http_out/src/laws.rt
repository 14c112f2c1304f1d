// How URLs are read.
ghost use Rattle.wf_value.specs.HttpUrl.{UrlIsOfHttpUri};

/// The reading of a URL as a function, `url` of wf_value, gives its parts exactly where `http_uri`
/// reads the text as an absolute URI with these parts, under the further rules that `address`
/// tells. The function does nothing; the check carries its clause out.
pub fn urls_are_of_http_uri()
    ensures { UrlIsOfHttpUri }
{}
