// The methods of requests.
ghost use Rattle.std.specs.Prelude.{◌≡◌, option_map};
ghost use Rattle.wf_callbacks.specs.Plain.{plain_method};
ghost use Rattle.wf_value.specs.Events.{method_name, method_named};

/// A method of HTTP (RFC 9110, section 9; RFC 5789): those that calls and callback endpoints have.
#[derive(Debug, Clone, Copy, PartialEq, Eq)]
pub enum Method {
    Get,
    Post,
    Put,
    Patch,
    Delete,
    Options,
}

impl Method {
    /// The name, in upper case, as a request has it.
    pub fn name(self) -> &'static str
        ensures { result.now ≡ method_name (plain_method self) }
    {
        match self {
            Method::Get => "GET",
            Method::Post => "POST",
            Method::Put => "PUT",
            Method::Patch => "PATCH",
            Method::Delete => "DELETE",
            Method::Options => "OPTIONS",
        }
    }

    /// The method of this name, in upper case alone; none where no method has it.
    pub fn named(name: &str) -> Option<Method>
        ensures { option_map plain_method result ≡ method_named name.now }
    {
        match name {
            "GET" => Some(Method::Get),
            "POST" => Some(Method::Post),
            "PUT" => Some(Method::Put),
            "PATCH" => Some(Method::Patch),
            "DELETE" => Some(Method::Delete),
            "OPTIONS" => Some(Method::Options),
            _ => None,
        }
    }
}
