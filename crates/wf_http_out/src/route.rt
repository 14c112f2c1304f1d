// The route for a host.
ghost use Rattle.std.specs.Prelude.{◌≡◌, option_map};
ghost use Rattle.wf_http_out.specs.View.{address_view, routes_view};
ghost use Rattle.wf_value.specs.HttpUrl.{route};

use crate::names::is_same_name;
use wf_host::Address;
use wf_value::Text;

/// The address of the first route for a host.
pub(crate) fn find_route<'a>(routes: &'a [(Text, Address)], host: &str) -> Option<&'a Address>
    ensures { option_map (λ a. address_view a.now) result
        ≡ route (routes_view routes.now) host.now }
{
    for pair in routes {
        if is_same_name(pair.0.as_str(), host) {
            return Some(&pair.1);
        }
    }
    None
}
