// What is known of a visit.
ghost use Rattle.std.specs.Prelude.{◌≡◌};

use crate::request::Request;
use wf_value::Bytes;

/// What is known of a visit.
#[derive(Clone, Copy)]
pub enum VisitState<'a> {
    /// More has to come.
    NotYet,
    /// The request is whole.
    Asked(Asker<'a>),
    /// It is no request that can be read, and gets the status 400.
    Bad,
    /// Its body has over 262,144 bytes, and it gets the status 413.
    TooLarge,
}

/// A whole request, lent from its visit.
#[derive(Clone, Copy)]
pub struct Asker<'a> {
    pub(crate) request: &'a Request,
    pub(crate) body: &'a [u8],
}

impl Asker<'_> {
    /// The method as it was sent: a token, of any case (RFC 9110, section 9.1).
    pub fn method(&self) -> &str
        ensures { result.now ≡ self.now.request.now.method }
    {
        self.request.method.as_str()
    }

    /// The target as it was sent, with its query (RFC 9112, section 3.2).
    pub fn target(&self) -> &str
        ensures { result.now ≡ self.now.request.now.target }
    {
        self.request.target.as_str()
    }

    /// The fields of the head in their order: names, and values without the blanks around them.
    pub fn fields(&self) -> &[(Bytes, Bytes)]
        ensures { result.now ≡ self.now.request.now.fields }
    {
        self.request.fields.items()
    }

    /// The body, which is empty where the head tells none.
    pub fn body(&self) -> &[u8]
        ensures { result.now ≡ self.now.body.now }
    {
        self.body
    }
}
