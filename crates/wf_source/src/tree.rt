// The tree of a source.
ghost use Rattle.std.specs.Prelude.{◌≡◌, ◌<◌, ◌≤◌, IfOk, IfErr, Ok, Err, IsUtf8, length};
ghost use Rattle.serde_json.specs.Read.{read};
ghost use Rattle.wf_source.specs.Sources as sources;
ghost use Rattle.wf_source.specs.declared.fault.SourceFault.TheVariants as faults;
ghost use Rattle.wf_source.specs.Views.{IsErrorOf};
ghost use Rattle.wf_tree.specs.Plain.{plain_tree};
ghost use Rattle.wf_tree.specs.Trees.{depth};
ghost use Rattle.wf_yaml.specs.Reading.{reading};

use crate::SourceFault;
use std::alloc::Global;
use wf_status::{Place, Refusal, RefusalKind};
use wf_tree::{Tree, TreeFault, read_json, reading_is_decided};
use wf_yaml::{Fault, Kind, YamlFault, read_yaml};

/// The greatest length of a source, in bytes.
pub const SOURCE_LIMIT: usize = 131_072;

/// A refusal of the source as a whole.
fn refused(kind: RefusalKind) -> SourceFault
    ensures { result ≡ faults.Refused (sources.refused kind) }
{
    SourceFault::Refused(Refusal {
        kind,
        place: Place::Source,
    })
}

/// Without a mark U+FEFF at the start.
fn without_mark(bytes: &[u8]) -> &[u8]
    ensures same { result.now ≡ sources.without_mark bytes.now }
    ensures length { length result.now ≤ length bytes.now }
{
    match bytes {
        [0xEF, 0xBB, 0xBF, rest @ ..] => rest,
        _ => bytes,
    }
}

/// Whether the first byte that isn't white is `{` or `[`.
fn is_json(text: &[u8]) -> bool
    ensures { result ≡ sources.is_json text.now }
{
    for byte in text {
        match *byte {
            b' ' | b'\t' | b'\r' | b'\n' => {}
            b'[' | b'{' => return true,
            _ => return false,
        }
    }
    false
}

/// The tree of a text that is taken for JSON.
fn json_tree(alloc: Global, text: &str) -> Result<Tree, SourceFault>
    ensures tree { IfOk result (λ t. sources.of_json (read text.now) ≡ Ok (plain_tree t)) }
    ensures depth { IfOk result (λ t. depth (plain_tree t) ≤ 100) }
    ensures fault { IfErr result (IsErrorOf (sources.of_json (read text.now))) }
{
    // laws that the proof uses
    reading_is_decided();
    match read_json(alloc, text) {
        Ok(tree) => Ok(tree),
        Err(TreeFault::NotJson) => Err(refused(RefusalKind::NotJson)),
        Err(TreeFault::Decimal(path)) => Err(SourceFault::Refused(Refusal {
            kind: RefusalKind::Decimal,
            place: Place::Path(path),
        })),
        Err(TreeFault::TooDeep) => Err(refused(RefusalKind::TooDeep)),
        Err(TreeFault::OutOfMemory) => Err(SourceFault::OutOfMemory),
    }
}

/// The kind of a refusal in YAML.
fn yaml_kind(kind: Kind) -> RefusalKind
    ensures { result ≡ sources.yaml_kind kind }
{
    match kind {
        Kind::Tab => RefusalKind::Tab,
        Kind::Indentation => RefusalKind::Indentation,
        Kind::DoubleKey => RefusalKind::DoubleKey,
        Kind::Anchor => RefusalKind::Anchor,
        Kind::Tag => RefusalKind::Tag,
        Kind::Flow => RefusalKind::Flow,
        Kind::Quote => RefusalKind::Quote,
        Kind::Decimal => RefusalKind::Decimal,
        Kind::Unsupported => RefusalKind::Unsupported,
        Kind::TooDeep => RefusalKind::TooDeep,
    }
}

/// A refusal in YAML, at its line.
fn yaml_refusal(fault: Fault) -> Refusal
    ensures { result ≡ sources.yaml_refusal fault }
{
    Refusal {
        kind: yaml_kind(fault.kind),
        place: Place::Line(fault.line),
    }
}

/// The tree of a text that is taken for YAML.
fn yaml_tree(alloc: Global, text: &str) -> Result<Tree, SourceFault>
    requires { length text.now < 4294967296 }
    ensures tree { IfOk result (λ t. sources.of_yaml (reading text.now) ≡ Ok (plain_tree t)) }
    ensures depth { IfOk result (λ t. depth (plain_tree t) ≤ 100) }
    ensures fault { IfErr result (IsErrorOf (sources.of_yaml (reading text.now))) }
{
    match read_yaml(alloc, text) {
        Ok(tree) => Ok(tree),
        Err(YamlFault::Refused(fault)) => Err(SourceFault::Refused(yaml_refusal(fault))),
        Err(YamlFault::OutOfMemory) => Err(SourceFault::OutOfMemory),
    }
}

/// The tree of a text, by the reader that its first byte chooses.
fn text_tree(alloc: Global, text: &str) -> Result<Tree, SourceFault>
    requires { length text.now < 4294967296 }
    ensures tree { IfOk result (λ t. sources.text_tree text.now ≡ Ok (plain_tree t)) }
    ensures depth { IfOk result (λ t. depth (plain_tree t) ≤ 100) }
    ensures fault { IfErr result (IsErrorOf (sources.text_tree text.now)) }
{
    if is_json(text.as_bytes()) {
        json_tree(alloc, text)
    } else {
        yaml_tree(alloc, text)
    }
}

/// The tree of what stands behind a mark.
fn content_tree(alloc: Global, content: &[u8]) -> Result<Tree, SourceFault>
    requires { length content.now < 4294967296 }
    ensures tree { IfOk result (λ t. sources.content_tree content.now ≡ Ok (plain_tree t)) }
    ensures depth { IfOk result (λ t. depth (plain_tree t) ≤ 100) }
    ensures fault { IfErr result (IsErrorOf (sources.content_tree content.now)) }
{
    match str::from_utf8(content) {
        Ok(text) => text_tree(alloc, text),
        Err(_) => Err(refused(RefusalKind::BadUtf8)),
    }
}

/// The tree of a source, or why it is refused, for the first of these causes:
///
/// - `SourceTooLong` at `source`: it has more than 131,072 bytes.
/// - `BadUtf8` at `source`: it is not UTF-8.
/// - Of a source whose first byte that isn't a space, a tab, CR or LF is `{` or `[`, the fault of
///   [`read_json`]: `NotJson` or `TooDeep` at `source`, or `Decimal` at its path.
/// - Of any other source the fault of [`read_yaml`], at its line.
///
/// A mark U+FEFF at the start is skipped. A tree nests at most 100 deep.
#[tactic(auto, unfolding(crate::specs::Sources::read_tree))]
pub fn read_tree(alloc: Global, bytes: &[u8]) -> Result<Tree, SourceFault>
    ensures tree { IfOk result (λ t. sources.read_tree bytes.now ≡ Ok (plain_tree t)) }
    ensures depth { IfOk result (λ t. depth (plain_tree t) ≤ 100) }
    ensures fault { IfErr result (IsErrorOf (sources.read_tree bytes.now)) }
{
    if bytes.len() > SOURCE_LIMIT {
        return Err(refused(RefusalKind::SourceTooLong));
    }
    content_tree(alloc, without_mark(bytes))
}
