// Where a URL leads.
ghost use Rattle.std.specs.Prelude.{IfOk, IsErrOf};
ghost use Rattle.wf_value.specs.HttpUrl.{Url, goal, goal_at};
ghost use Rattle.wf_http_out.specs.Parts.{IsPartsOf};
ghost use Rattle.wf_http_out.specs.Urls.{IsNoUrl, LeadsTo, LeadsNowhere, address_of};
ghost use Rattle.wf_http_out.specs.View.{AgreesWith, goal_view, routes_view};

use crate::parts::{Parts, read_url};
use crate::route::find_route;
use crate::{Goal, OutFault};
use std::alloc::Global;
use wf_host::{Address, Routes};

/// Where a URL sends a call: to the first route for its host, where ASCII case doesn't count, or
/// else, under `http`, to the host itself at its port, which is 80 where it has none. The host of
/// an IPv6 address keeps its brackets.
///
/// A URL is a text of 1 to 8,192 bytes from 0x21 to 0x7E without `#`, which `http_uri` reads as an
/// absolute URI (RFC 9112, section 3.2.2) with the scheme `http` or `https` in any case, a host
/// that isn't empty, no user, and no port or one of 1 to 65,535 in digits. The errors are `BadUrl`
/// where the text is no URL, `NoRoute` under `https` where there is no route, and `OutOfMemory`.
pub fn address(alloc: Global, url: &str, routes: &Routes) -> Result<Goal, OutFault>
    ensures goal { IfOk result (λ g. LeadsTo url.now (routes_view routes.now) (goal_view g)) }
    ensures bad_url { IsErrOf result OutFault.BadUrl → IsNoUrl url.now }
    ensures no_route { IsErrOf result OutFault.NoRoute
        → LeadsNowhere url.now (routes_view routes.now) }
    ensures as_function { AgreesWith goal_view result (goal url.now (routes_view routes.now)) }
{
    match read_url(alloc, url) {
        Ok(parts) => goal_of(parts, routes),
        Err(fault) => Err(fault),
    }
}

fn goal_of(parts: Parts, routes: &Routes) -> Result<Goal, OutFault>
    ensures { (u : Url) → IsPartsOf u parts
        → AgreesWith goal_view result (goal_at u (address_of u (routes_view routes.now))) }
{
    let Parts {
        is_secure,
        authority,
        host,
        port,
        target,
    } = parts;
    let found = find_route(routes.items(), host.as_str());
    let address = match found {
        Some(to) => Address {
            name: to.name.copy()?,
            port: to.port,
        },
        None => {
            if is_secure {
                return Err(OutFault::NoRoute);
            }
            Address { name: host, port }
        }
    };
    Ok(Goal {
        address,
        authority,
        target,
    })
}
