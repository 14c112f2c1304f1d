// The names of kinds of refusals.
use wf_yaml_line::Kind;

/// The kind's name.
pub(crate) fn name_of(kind: Kind) -> &'static str {
    match kind {
        Kind::Tab => "Tab",
        Kind::Indentation => "Indentation",
        Kind::DoubleKey => "DoubleKey",
        Kind::Anchor => "Anchor",
        Kind::Tag => "Tag",
        Kind::Flow => "Flow",
        Kind::Quote => "Quote",
        Kind::Decimal => "Decimal",
        Kind::Unsupported => "Unsupported",
        Kind::TooDeep => "TooDeep",
    }
}
