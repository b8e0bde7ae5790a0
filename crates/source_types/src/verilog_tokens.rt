//! Tokens of structural Verilog (IEEE 1364-2005), and the symbols of its grammar.

/// The kinds of token that the grammar tells apart. What stands in a wrong place by what stood before it has a kind
/// of its own.
#[derive(Clone, Copy)]
pub enum VerilogToken {
    Module,
    EndModule,
    Input,
    Output,
    Inout,
    Wire,
    Tri,
    Supply0,
    Supply1,
    Assign,
    /// An identifier, simple or escaped.
    Name,
    /// An identifier in a port declaration whose module does not list it.
    UnlistedName,
    /// A number that may be the size of a constant: 1 to 64, its first digit no zero.
    Size,
    /// Another number up to 999,999.
    Number,
    /// A number above 999,999.
    LargeNumber,
    /// The base of a constant.
    Base,
    /// The digits of a constant, after their base.
    Digits,
    Open,
    Close,
    OpenBracket,
    CloseBracket,
    OpenBrace,
    CloseBrace,
    /// An opening brace after 100 that are open.
    DeepBrace,
    Comma,
    Colon,
    Semicolon,
    Dot,
    Equals,
    /// What no text of the grammar has.
    Other,
}

/// The symbols of the grammar: tokens, and what is made of them.
#[derive(Clone, Copy)]
pub enum VerilogSymbol {
    Token(VerilogToken),
    /// Modules.
    Source,
    /// A module after its name.
    Header,
    /// The ports of a header, after the parenthesis, with all that follows in the module.
    Ports,
    /// More names of a list of ports, with all that follows in the module.
    ListedPorts,
    /// A declared port of a header after its direction, with all that follows in the module.
    DeclaredPort,
    /// The same after the kind of its net.
    NamedPort,
    /// More declared ports, with all that follows in the module.
    DeclaredPorts,
    /// A declared port after a comma, with a direction of its own or that of the port before it.
    NextPort,
    /// Statements of a module up to its end.
    Statements,
    /// The same, port declarations among them.
    PortStatements,
    /// A declaration of nets after its keyword.
    Declaration,
    /// A declaration of ports after its direction.
    PortDeclaration,
    /// More names of a declaration up to its semicolon.
    Names,
    /// A bound of a range.
    Bound,
    /// More assignments of an `assign` up to its semicolon.
    Assignments,
    /// The left side of an assignment.
    Left,
    /// More parts of a concatenation on the left.
    LeftParts,
    /// The bits of a net that are selected, or nothing.
    Select,
    /// The second bound of a select, or its end.
    SelectEnd,
    /// The index of a bit.
    Index,
    /// A net, a constant or a concatenation.
    Bits,
    /// More parts of a concatenation.
    Parts,
    /// More instances of a statement up to its semicolon.
    Instances,
    /// The connections of an instance, after the parenthesis.
    Connections,
    /// What is connected, or nothing.
    Connected,
    /// More ordered connections.
    OrderedConnections,
    /// More named connections.
    NamedConnections,
}
