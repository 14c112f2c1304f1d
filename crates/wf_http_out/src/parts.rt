// The parts of a URL that a call is sent by.
ghost use Rattle.std.specs.Prelude.{◌≡◌, ◌++◌, Some, true, false, IfOk, IsErrOf};
ghost use Rattle.std.specs.List.{list_all};
ghost use Rattle.std.specs.Option.{option_copied};
ghost use Rattle.http_uri.specs.Uri.{HasParts};
ghost use Rattle.wf_value.specs.HttpUrl.{Url, IsUrl, is_url_byte, query_text};
ghost use Rattle.wf_http_out.specs.Urls.{is_sendable, is_short_text, IsNoUrl};
ghost use Rattle.wf_http_out.specs.Parts.{IsPartsOf};

use crate::OutFault;
use crate::port::web_port;
use http_uri::{Uri, UriError};
use std::alloc::Global;
use wf_value::{OutOfMemory, Text};

/// What a URL of http or https spells.
#[derive(Drop)]
pub(crate) struct Parts {
    pub(crate) is_secure: bool,
    pub(crate) authority: Text,
    pub(crate) host: Text,
    // 80 where the URL has none.
    pub(crate) port: u16,
    pub(crate) target: Text,
}

/// The parts of a URL. The errors are `BadUrl` and `OutOfMemory`.
pub(crate) fn read_url(alloc: Global, text: &str) -> Result<Parts, OutFault>
    ensures ok { IfOk result (λ p. (u : Url) × IsUrl text.now u × IsPartsOf u p) }
    ensures bad_url { IsErrOf result OutFault.BadUrl → IsNoUrl text.now }
    ensures no_route { IsErrOf result OutFault.NoRoute → ⊥ }
    ensures bad_header { IsErrOf result OutFault.BadHeader → ⊥ }
    ensures bad_body { IsErrOf result OutFault.BadBody → ⊥ }
{
    if !is_short(text) {
        return Err(OutFault::BadUrl);
    }
    match Uri::from_str(alloc, text) {
        Ok(uri) => parts_of(alloc, &uri),
        Err(UriError::Invalid(_)) => Err(OutFault::BadUrl),
        Err(UriError::OutOfMemory) => Err(OutFault::OutOfMemory),
    }
}

/// Whether a text is short enough, and of visible ASCII without `#`.
fn is_short(text: &str) -> bool
    ensures { result ≡ is_short_text text.now }
{
    !text.is_empty() && text.len() <= 8192 && are_url_bytes(text)
}

fn are_url_bytes(text: &str) -> bool
    ensures { result ≡ list_all is_url_byte text.now }
{
    text.bytes().all(|b| (33..=126).contains(&b) && b != b'#')
}

fn parts_of(alloc: Global, uri: &Uri) -> Result<Parts, OutFault>
    ensures ok { IfOk result (λ p. (u : Url)
        × HasParts uri.now (Some u.scheme) (Some u.authority) u.kept
        × (is_sendable u.scheme u.authority ≡ true) × IsPartsOf u p) }
    ensures bad_url { IsErrOf result OutFault.BadUrl → (u : Url)
        → HasParts uri.now (Some u.scheme) (Some u.authority) u.kept
        → is_sendable u.scheme u.authority ≡ false }
    ensures no_route { IsErrOf result OutFault.NoRoute → ⊥ }
    ensures bad_header { IsErrOf result OutFault.BadHeader → ⊥ }
    ensures bad_body { IsErrOf result OutFault.BadBody → ⊥ }
{
    let Some(scheme) = uri.scheme_str() else {
        return Err(OutFault::BadUrl);
    };
    let Some(authority) = uri.authority() else {
        return Err(OutFault::BadUrl);
    };
    let Some(host) = uri.host() else {
        return Err(OutFault::BadUrl);
    };
    let Some(port) = web_port(scheme, authority.as_str(), host) else {
        return Err(OutFault::BadUrl);
    };
    Ok(Parts {
        is_secure: scheme != "http",
        authority: Text::new(alloc, authority.as_str())?,
        host: Text::new(alloc, host)?,
        port,
        target: target(alloc, uri.path(), uri.query())?,
    })
}

/// A path, and its query behind it.
fn target(alloc: Global, path: &str, query: Option<&str>) -> Result<Text, OutOfMemory>
    ensures { IfOk result (λ t. t ≡ path.now ++ query_text (option_copied query.entry)) }
{
    let mut target = String::from_str(alloc, path)?;
    if let Some(query) = query {
        target.push('?')?;
        target.push_str(query)?;
    }
    Text::new(alloc, target.as_str())
}
