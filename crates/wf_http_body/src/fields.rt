// The values of fields.
ghost use Rattle.std.specs.Prelude.{◌≡◌, ◌<◌, ◌≤◌, ◌∷◌, [], MatchOption, drop, length};
ghost use Rattle.wf_value.specs.HttpText.{is_field_named, values_of};

use wf_value::Bytes;

/// The first value of a name from a field on, without case, and the number of the field behind it.
pub(crate) fn next_value<'a>(
    fields: &'a [(Bytes, Bytes)],
    name: &[u8],
    from: usize,
) -> Option<(&'a [u8], usize)>
    requires { from ≤ length fields.now }
    ensures { MatchOption result (values_of name.now (drop from fields.now)
        ≡ []) (λ r. (values_of name.now (drop from fields.now)
        ≡ r.0.now ∷ values_of name.now (drop r.1 fields.now)) × (from < r.1)
        × (r.1 ≤ length fields.now)) }
{
    for i in from..fields.len() {
        let field = &fields[i];
        if is_named(name, field) {
            return Some((field.1.as_slice(), i + 1));
        }
    }
    None
}

fn is_named(name: &[u8], field: &(Bytes, Bytes)) -> bool
    ensures { result ≡ is_field_named name.now field.now }
{
    name.eq_ignore_ascii_case(field.0.as_slice())
}
