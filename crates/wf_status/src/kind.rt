// What is wrong with a source.
ghost use Rattle.std.specs.Prelude.{◌≡◌};
ghost use Rattle.wf_status.specs.Refusals.{kind_name};

/// What is wrong with a source. One kind may serve several layers: its place tells them apart.
#[derive(Debug, Clone, Copy, PartialEq, Eq)]
pub enum RefusalKind {
    /// The source is longer than the limit on its bytes.
    SourceTooLong,
    /// The source is not UTF-8.
    BadUtf8,
    /// The source is not JSON (RFC 8259).
    NotJson,
    /// Lists and maps nest too deep.
    TooDeep,
    /// A number is not whole, or is past 64 bits.
    Decimal,
    /// YAML: a tab stands in the indentation of a line.
    Tab,
    /// YAML: the indentation of a line fits no open block.
    Indentation,
    /// YAML: a key stands twice in one map.
    DoubleKey,
    /// YAML: an anchor or an alias.
    Anchor,
    /// YAML: a tag.
    Tag,
    /// YAML: a flow collection is open, or holds what may not stand there.
    Flow,
    /// YAML: a quoted scalar is open, has an unknown escape, or is followed by text.
    Quote,
    /// YAML: a form outside the subset that is read.
    Unsupported,
    /// An item of a list of steps or branches is no map of one key with a good name.
    NotAStep,
    /// A map of the language has a key that its form does not have.
    UnknownField,
    /// A field that its form requires is absent.
    MissingField,
    /// A field has a kind of value that its form does not allow.
    WrongKind,
    /// Expression: a character at which no token begins, or an unknown escape.
    BadCharacter,
    /// Expression: a quoted text is not closed.
    OpenText,
    /// Expression: the tokens so far begin no expression.
    Syntax,
    /// Expression: a call of a function that is not known.
    UnknownFunction,
    /// Expression: a call with the wrong count of arguments.
    Arity,
    /// Expression: longer than the limit.
    TooLong,
    /// A list of steps or of branches has no item.
    EmptySteps,
    /// A name of a step or of a branch stands twice.
    DoubleStep,
    /// `next` names no step of its workflow.
    UnknownStep,
    /// `next` names a step to which it may not jump.
    JumpOutOfScope,
    /// `break` or `continue` stands in no loop that it may act on.
    BreakOutsideLoop,
    /// `return` or `next: end` stands in a branch.
    ReturnInBranch,
    /// A branch assigns an outer name that is not `shared`.
    UndeclaredWrite,
    /// `shared` has a name that is no outer name.
    UnknownShared,
    /// An expression reads a name that is not visible.
    UnknownName,
    /// A call or a predicate names no workflow or function that it may.
    UnknownCall,
    /// The arguments of a call do not fit the parameters.
    BadArgument,
    /// A limit on a count is passed.
    TooMany,
    /// A form that is not built yet.
    NotYet,
}

impl RefusalKind {
    /// The name of the kind, as a refusal prints it.
    pub fn name(self) -> &'static str
        ensures { result.now ≡ kind_name self }
    {
        match self {
            RefusalKind::SourceTooLong => "SourceTooLong",
            RefusalKind::BadUtf8 => "BadUtf8",
            RefusalKind::NotJson => "NotJson",
            RefusalKind::TooDeep => "TooDeep",
            RefusalKind::Decimal => "Decimal",
            RefusalKind::Tab => "Tab",
            RefusalKind::Indentation => "Indentation",
            RefusalKind::DoubleKey => "DoubleKey",
            RefusalKind::Anchor => "Anchor",
            RefusalKind::Tag => "Tag",
            RefusalKind::Flow => "Flow",
            RefusalKind::Quote => "Quote",
            RefusalKind::Unsupported => "Unsupported",
            RefusalKind::NotAStep => "NotAStep",
            RefusalKind::UnknownField => "UnknownField",
            RefusalKind::MissingField => "MissingField",
            RefusalKind::WrongKind => "WrongKind",
            RefusalKind::BadCharacter => "BadCharacter",
            RefusalKind::OpenText => "OpenText",
            RefusalKind::Syntax => "Syntax",
            RefusalKind::UnknownFunction => "UnknownFunction",
            RefusalKind::Arity => "Arity",
            RefusalKind::TooLong => "TooLong",
            RefusalKind::EmptySteps => "EmptySteps",
            RefusalKind::DoubleStep => "DoubleStep",
            RefusalKind::UnknownStep => "UnknownStep",
            RefusalKind::JumpOutOfScope => "JumpOutOfScope",
            RefusalKind::BreakOutsideLoop => "BreakOutsideLoop",
            RefusalKind::ReturnInBranch => "ReturnInBranch",
            RefusalKind::UndeclaredWrite => "UndeclaredWrite",
            RefusalKind::UnknownShared => "UnknownShared",
            RefusalKind::UnknownName => "UnknownName",
            RefusalKind::UnknownCall => "UnknownCall",
            RefusalKind::BadArgument => "BadArgument",
            RefusalKind::TooMany => "TooMany",
            RefusalKind::NotYet => "NotYet",
        }
    }
}
