// Places below a variable.
use wf_value::Text;

/// A place below a variable (Google Cloud Workflows reference, "Variables": lists and maps in assignments).
#[derive(Drop)]
pub enum Key {
    /// The value at a key of a map.
    Name(Text),
    /// The item at an index of a list, from 0 on.
    At(i64),
}
