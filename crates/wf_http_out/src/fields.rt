// The fields that a caller gives.
ghost use Rattle.std.specs.Prelude.{◌≡◌, ◌&&◌, ◌++◌, [], not};
ghost use Rattle.std.specs.List.{list_all};
ghost use Rattle.http_uri.specs.ByteClasses.{lowercase};
ghost use Rattle.httparse.specs.Grammar as http;
ghost use Rattle.wf_value.specs.HttpRequest.{good_fields, is_among, is_field_byte, own_fields};
ghost use Rattle.wf_http_out.specs.Fields.{names_before};

use crate::names::is_same_name;
use httparse::is_token;
use wf_value::Text;

/// Whether fields can be sent: each name is a token (RFC 9110, section 5.6.2), none is the request's
/// own or stands twice without case, and each value is of visible ASCII and blanks.
pub(crate) fn are_good_fields(fields: &[(Text, Text)]) -> bool
    ensures { result ≡ good_fields [] fields.now }
{
    for i in 0..fields.len() {
        let (earlier, rest) = fields.split_at(i);
        let field = &rest[0];
        if !is_good_field(earlier, field.0.as_str(), field.1.as_str()) {
            return false;
        }
    }
    true
}

fn is_good_field(earlier: &[(Text, Text)], name: &str, value: &str) -> bool
    ensures { result ≡ (http.is_token name.now && not
        (is_among (lowercase name.now) (own_fields ++ names_before earlier.now)) && list_all
        is_field_byte value.now) }
{
    is_token(name.as_bytes()) && !is_own(name) && !stands_in(earlier, name) && is_value(value)
}

/// Whether a request has this field by itself.
fn is_own(name: &str) -> bool
    ensures { result ≡ is_among (lowercase name.now) own_fields }
{
    is_same_name(name, "host")
        || is_same_name(name, "connection")
        || is_same_name(name, "content-length")
        || is_same_name(name, "transfer-encoding")
        || is_same_name(name, "x-workflow-call")
}

fn stands_in(fields: &[(Text, Text)], name: &str) -> bool
    ensures { result ≡ is_among (lowercase name.now) (names_before fields.now) }
{
    for field in fields {
        if is_same_name(name, field.0.as_str()) {
            return true;
        }
    }
    false
}

fn is_value(value: &str) -> bool
    ensures { result ≡ list_all is_field_byte value.now }
{
    value.bytes().all(|b| (32..=126).contains(&b))
}
