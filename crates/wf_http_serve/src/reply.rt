// Replies to visits.
ghost use Rattle.std.specs.Prelude.{◌≡◌};
ghost use Rattle.wf_http_serve.specs.Plain.{plain_code};
ghost use Rattle.wf_value.specs.HttpText as text;

/// What a visit is told, each with its status code.
#[derive(Debug, Clone, Copy, PartialEq, Eq)]
pub enum ReplyCode {
    /// 200: the request was taken.
    Accepted,
    /// 400: it is no request that can be read.
    BadRequest,
    /// 404: there is no endpoint at its target.
    NotFound,
    /// 405: the endpoint is for another method.
    MethodNotAllowed,
    /// 413: its body has over 262,144 bytes.
    TooLarge,
    /// 429: there is no room for it now.
    TooMany,
}

/// The whole reply to a visit (RFC 9112, section 4): its status line, an empty body's length and the
/// word that the connection closes.
pub fn reply_bytes(code: ReplyCode) -> &'static [u8]
    ensures { result.now ≡ text.reply_bytes (plain_code code) }
{
    match code {
        ReplyCode::Accepted => b"HTTP/1.1 200 OK\r\nContent-Length: 0\r\nConnection: close\r\n\r\n",
        ReplyCode::BadRequest =>
            b"HTTP/1.1 400 Bad Request\r\nContent-Length: 0\r\nConnection: close\r\n\r\n",
        ReplyCode::NotFound =>
            b"HTTP/1.1 404 Not Found\r\nContent-Length: 0\r\nConnection: close\r\n\r\n",
        ReplyCode::MethodNotAllowed =>
            b"HTTP/1.1 405 Method Not Allowed\r\nContent-Length: 0\r\nConnection: close\r\n\r\n",
        ReplyCode::TooLarge =>
            b"HTTP/1.1 413 Content Too Large\r\nContent-Length: 0\r\nConnection: close\r\n\r\n",
        ReplyCode::TooMany =>
            b"HTTP/1.1 429 Too Many Requests\r\nContent-Length: 0\r\nConnection: close\r\n\r\n",
    }
}
