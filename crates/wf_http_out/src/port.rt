// The port of an authority.
ghost use Rattle.std.specs.Prelude.{◌≡◌, true, false, ◌==◌, MatchOption, not};
ghost use Rattle.http_uri.specs.ByteClasses.{count_of, at_sign};
ghost use Rattle.http_uri.specs.Grammar.{authority_host};
ghost use Rattle.wf_value.specs.HttpUrl.{is_web, is_port, port_of, port_text};
ghost use Rattle.wf_http_out.specs.Urls.{is_sendable};

/// The port of a URL of http or https, 80 where it has none. There is none where it has another
/// scheme, a user, no host or a bad port.
pub(crate) fn web_port(scheme: &str, authority: &str, host: &str) -> Option<u16>
    requires { host.now ≡ authority_host authority.now }
    ensures { MatchOption result (is_sendable scheme.now authority.now
        ≡ false) (λ port. (is_sendable scheme.now authority.now ≡ true)
        × (port ≡ port_of (port_text authority.now))) }
{
    if !is_web_scheme(scheme) || has_user(authority) || host.is_empty() {
        return None;
    }
    match authority.strip_prefix(host) {
        Some(tail) => port_behind(tail),
        None => None,
    }
}

fn is_web_scheme(scheme: &str) -> bool
    ensures { result ≡ is_web scheme.now }
{
    scheme == "http" || scheme == "https"
}

fn has_user(authority: &str) -> bool
    ensures { result ≡ not (count_of at_sign authority.now == 0) }
{
    authority.as_bytes().contains(&b'@')
}

/// The port that stands behind a host: nothing, or a colon and 1 to 65,535 in digits.
fn port_behind(tail: &str) -> Option<u16>
    ensures { MatchOption result (is_port tail.now ≡ false) (λ port. (is_port tail.now ≡ true)
        × (port ≡ port_of tail.now)) }
{
    if tail.is_empty() {
        return Some(80);
    }
    let digits = tail.strip_prefix(':')?;
    if digits.starts_with('+') {
        return None;
    }
    match digits.parse::<u16>() {
        Ok(0) => None,
        Ok(port) => Some(port),
        Err(_) => None,
    }
}
