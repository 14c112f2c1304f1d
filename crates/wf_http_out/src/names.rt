// Names without case.
ghost use Rattle.std.specs.Prelude.{◌≡◌, bytes_eq};
ghost use Rattle.http_uri.specs.ByteClasses.{lowercase};

/// Whether two names are the same, where ASCII letters of either case are one.
pub(crate) fn is_same_name(one: &str, other: &str) -> bool
    ensures { result ≡ bytes_eq (lowercase one.now) (lowercase other.now) }
{
    one.eq_ignore_ascii_case(other)
}
