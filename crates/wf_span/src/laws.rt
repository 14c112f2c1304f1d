// Laws of tokens.
ghost use Rattle.wf_span.specs.Laws.{LexerIsThem, TokensAreOne};

/// A source has one list of tokens, or one first fault, and not both. So `tokens` gives the tokens
/// wherever a source has some, and else the one first fault, unless memory is missing.
pub fn tokens_are_one()
    ensures { TokensAreOne }
{}

/// Each source has tokens or a first fault, and the lexer of the definitions gives them.
pub fn lexer_is_them()
    ensures { LexerIsThem }
{}
