//! The kinds of token of a library's text, and what its grammar is made of (Liberty).

/// What parts a token from the one before it.
#[derive(Clone, Copy)]
pub enum Gap {
    /// Nothing.
    Nothing,
    /// Blanks, comments or continued lines.
    Blanks,
    /// The end of a line, so that the token is the first one on its line.
    LineEnd,
}

/// A kind of token.
#[derive(Clone, Copy)]
pub enum LibertyToken {
    /// The name or number `library`.
    Library(Gap),
    /// Any other name or number.
    Word(Gap),
    /// A quoted text.
    Quoted(Gap),
    /// `(`
    Open(Gap),
    /// `)`
    Close,
    /// `{` of a group that is not nested too deeply.
    Begin,
    /// `{` of a group that is.
    TooDeep,
    /// `}`
    End,
    /// `:` outside square brackets
    Colon,
    /// `;`
    Semicolon,
    /// `,`
    Comma,
}

/// What the right sides of the grammar are made of.
#[derive(Clone, Copy)]
pub enum LibertySymbol {
    /// A whole text: `library` groups, one or more.
    Libraries,
    /// Further `library` groups.
    MoreLibraries,
    /// `(`
    Parenthesis,
    /// After `(`: arguments, and `)`.
    Arguments,
    /// After a comma: an argument, and those after it.
    Argument,
    /// After an argument: further ones, and `)`.
    MoreArguments,
    /// `{`
    Brace,
    /// Groups and attributes in a group.
    Statements,
    /// After the name of a group or attribute: what stands in its parentheses or after its colon, and what
    /// follows it in its group.
    AfterName,
    /// After `)` of arguments: the braces of a group, or the end of a complex attribute.
    AfterArguments,
    /// After the colon of a simple attribute.
    Value,
    /// More of an expression.
    Operands,
    /// After `(` in an expression.
    Enclosed,
    /// The end of an attribute, and what follows it in its group.
    AttributeEnd,
    /// `}`
    GroupEnd,
}
