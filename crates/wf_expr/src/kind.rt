// The symbols of an expression.
use wf_ast::Op;
use wf_value::Text;

/// What a symbol is to the grammar.
#[derive(Drop)]
pub(crate) enum Kind {
    // a whole number of 64 bits
    Number(i64),
    // a number with a point, or a greater one
    Decimal,
    // what a quoted text says
    Quoted(Text),
    Null,
    Bool(bool),
    Name(Text),
    // `== != < <= > >= in`
    Relation(Op),
    // `+ -`
    Sign(Op),
    // `* / // %`
    Product(Op),
    And,
    Or,
    Not,
    Point,
    Comma,
    LeftParen,
    RightParen,
    LeftBracket,
    RightBracket,
}

/// A symbol, and its place in bytes.
#[derive(Drop)]
pub(crate) struct Symbol {
    pub(crate) kind: Kind,
    pub(crate) at: u32,
}
