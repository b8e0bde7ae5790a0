//! Whether tokens are a library's text, and the groups and attributes that they are.

pub mod grammar;
pub mod kinds;
pub mod members;
pub mod recognition;
pub mod said;
pub mod statements;
pub mod words;
