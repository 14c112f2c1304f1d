// The head of a request (RFC 9112, sections 2.1, 3 and 5), line by line.
ghost use Rattle.std.specs.Prelude.{◌≡◌, [], ◌++◌, ◌==◌, not, OnOk, if◌then◌else◌, codes, decimal, length, map, option_map, string_bytes};
ghost use Rattle.std.specs.List.{flat_map};
ghost use Rattle.wf_callbacks.specs.Plain.{plain_method};
ghost use Rattle.wf_value.specs.Events.{method_name};
ghost use Rattle.wf_value.specs.HttpRequest.{content_types, field_line, has_query, length_line, query_pair, type_line, with_query};
ghost use Rattle.wf_value.specs.HttpText.{line};
ghost use Rattle.wf_value.specs.LibText.{url_encoded};
ghost use Rattle.wf_http_out.specs.Asked.{payload_view};

use crate::body::Payload;
use crate::escapes::URL;
use crate::names::is_same_name;
use percent_encoding::utf8_percent_encode;
use std::alloc::{AllocError, Global};
use wf_callbacks::Method;
use wf_value::Text;

/// The lines so far.
#[derive(Drop)]
pub(crate) struct Lines {
    pub(crate) text: String,
}

impl Lines {
    fn put(&mut self, part: &str) -> Result<(), AllocError>
        ensures { OnOk result (string_bytes self.new.text
            ≡ string_bytes self.old.text ++ part.now) }
    {
        self.text.push_str(part)
    }

    /// The empty line.
    pub(crate) fn end(&mut self) -> Result<(), AllocError>
        ensures { OnOk result (string_bytes self.new.text ≡ string_bytes self.old.text ++ line []) }
    {
        self.put("\r\n")
    }

    /// The first line: the method, the target with the query behind it, and the version.
    pub(crate) fn start(
        &mut self,
        method: Method,
        target: &str,
        query: &[(Text, Text)],
    ) -> Result<(), AllocError>
        ensures { OnOk result (string_bytes self.new.text
            ≡ string_bytes self.old.text
            ++ line (method_name (plain_method method) ++ codes " "
            ++ with_query target.now query.now ++ codes " HTTP/1.1")) }
    {
        self.put(method.name())?;
        self.put(" ")?;
        self.target(target, query)?;
        self.put(" HTTP/1.1\r\n")
    }

    fn target(&mut self, target: &str, query: &[(Text, Text)]) -> Result<(), AllocError>
        ensures { OnOk result (string_bytes self.new.text
            ≡ string_bytes self.old.text ++ with_query target.now query.now) }
    {
        self.put(target)?;
        let Some((first, rest)) = query.split_first() else {
            return Ok(());
        };
        self.put(query_mark(target))?;
        self.pair(first)?;
        self.more_pairs(rest)
    }

    fn pair(&mut self, pair: &(Text, Text)) -> Result<(), AllocError>
        ensures { OnOk result (string_bytes self.new.text
            ≡ string_bytes self.old.text ++ query_pair pair.now) }
    {
        self.escaped(pair.0.as_str())?;
        self.put("=")?;
        self.escaped(pair.1.as_str())
    }

    fn more_pairs(&mut self, pairs: &[(Text, Text)]) -> Result<(), AllocError>
        ensures { OnOk result (string_bytes self.new.text
            ≡ string_bytes self.old.text
            ++ flat_map (λ q. codes "&" ++ q) (map query_pair pairs.now)) }
    {
        for pair in pairs {
            self.put("&")?;
            self.pair(pair)?;
        }
        Ok(())
    }

    fn escaped(&mut self, text: &str) -> Result<(), AllocError>
        ensures { OnOk result (string_bytes self.new.text
            ≡ string_bytes self.old.text ++ url_encoded text.now) }
    {
        utf8_percent_encode(text, URL).append_to(&mut self.text)
    }

    /// The line of a field.
    pub(crate) fn field(&mut self, name: &str, value: &str) -> Result<(), AllocError>
        ensures { OnOk result (string_bytes self.new.text
            ≡ string_bytes self.old.text ++ field_line (name.now, value.now)) }
    {
        self.put(name)?;
        self.put(": ")?;
        self.put(value)?;
        self.put("\r\n")
    }

    /// The lines of some fields, in their order.
    pub(crate) fn fields(&mut self, fields: &[(Text, Text)]) -> Result<(), AllocError>
        ensures { OnOk result (string_bytes self.new.text
            ≡ string_bytes self.old.text ++ flat_map field_line fields.now) }
    {
        for field in fields {
            self.field(field.0.as_str(), field.1.as_str())?;
        }
        Ok(())
    }

    /// Which call of which execution this is.
    pub(crate) fn call(&mut self, alloc: Global, id: &str, k: u64) -> Result<(), AllocError>
        ensures { OnOk result (string_bytes self.new.text
            ≡ string_bytes self.old.text
            ++ line (codes "X-Workflow-Call: " ++ id.now ++ codes "-" ++ decimal k)) }
    {
        let number = k.to_string(alloc)?;
        self.put("X-Workflow-Call: ")?;
        self.put(id)?;
        self.put("-")?;
        self.put(number.as_str())?;
        self.put("\r\n")
    }

    /// The Content-Type, where there is a body and the caller gave none.
    pub(crate) fn media_type(
        &mut self,
        fields: &[(Text, Text)],
        payload: &Option<Payload>,
    ) -> Result<(), AllocError>
        ensures { OnOk result (string_bytes self.new.text
            ≡ string_bytes self.old.text
            ++ type_line (content_types fields.now) (option_map payload_view payload.now)) }
    {
        let Some(payload) = payload else {
            return Ok(());
        };
        if has_content_type(fields) {
            return Ok(());
        }
        self.field("Content-Type", payload.media_type.as_str())
    }

    /// The Content-Length, where there is a body or the method has one by its nature.
    pub(crate) fn length(
        &mut self,
        alloc: Global,
        method: Method,
        payload: &Option<Payload>,
    ) -> Result<(), AllocError>
        ensures { OnOk result (string_bytes self.new.text
            ≡ string_bytes self.old.text
            ++ length_line (plain_method method) (option_map payload_view payload.now)) }
    {
        match payload {
            Some(payload) => {
                let number = payload.bytes.as_slice().len().to_string(alloc)?;
                self.field("Content-Length", number.as_str())
            }
            None => match method {
                Method::Post | Method::Put | Method::Patch => self.field("Content-Length", "0"),
                Method::Get | Method::Delete | Method::Options => Ok(()),
            },
        }
    }
}

/// What stands between a target and what is added to its query.
fn query_mark(target: &str) -> &'static str
    ensures { result.now ≡ (if has_query target.now then codes "&" else codes "?") }
{
    if target.as_bytes().contains(&b'?') {
        "&"
    } else {
        "?"
    }
}

fn has_content_type(fields: &[(Text, Text)]) -> bool
    ensures { result ≡ not (length (content_types fields.now) == 0) }
{
    for field in fields {
        if is_same_name("content-type", field.0.as_str()) {
            return true;
        }
    }
    false
}
