// The words of routes.
ghost use Rattle.std.specs.Prelude.{◌≡◌};
ghost use Rattle.std.specs.Option.{option_map};
ghost use Rattle.wf_args.specs.Lines.{number_to, route_in};
ghost use Rattle.wf_args.specs.Plain.{plain_route};

use crate::waits::number_to;

/// The most bytes of a path, and of the word of a route.
pub(crate) const LONGEST_WORD: usize = 65_536;

/// What a word `HOST=NAME:PORT` says: calls for the host are sent to the name and port.
#[derive(Debug, Clone, Copy, PartialEq, Eq)]
pub struct RouteParts<'w> {
    /// The host that calls name, not empty and without `=`.
    pub host: &'w str,
    /// The name of the host to which they are sent, not empty and without `=` and `:`.
    pub name: &'w str,
    /// The port there, not 0.
    pub port: u16,
}

/// The route that the word of `--route` says.
pub(crate) fn route_in(word: &str) -> Option<RouteParts<'_>>
    ensures { option_map plain_route result ≡ route_in word.now }
{
    let (host, to) = word.split_once('=')?;
    let (name, digits) = to.split_once(':')?;
    if word.len() > LONGEST_WORD || host.is_empty() || name.is_empty() || name.contains('=') {
        return None;
    }
    let port = port_in(digits)?;
    Some(RouteParts { host, name, port })
}

/// The port that digits write.
fn port_in(digits: &str) -> Option<u16>
    ensures { result ≡ number_to 65535 digits.now }
{
    match number_to(65_535, digits) {
        Some(number) => u16::try_from(number).ok(),
        None => None,
    }
}
