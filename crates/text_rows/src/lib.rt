//! Tests of lines of texts and of token grammars from outside: lines counted by hand, and a small grammar worked out, with
//! the tokens that break its texts. The clauses of `text_lines` and `token_grammar` say of any text and any grammar what
//! comes of it; the rows show that they say what is meant.
#![tactic(auto)]

#[cfg(test)]
mod lines;
#[cfg(test)]
mod nested_groups;
