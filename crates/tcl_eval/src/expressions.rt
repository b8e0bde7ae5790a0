//! Expressions: their tokens, their parsed form, and what operators make of values.

pub mod lexed;
pub mod numbers;
pub mod operations;
pub mod operators;
pub mod parsing;
pub mod reading;
pub mod steps;
pub mod tokens;
pub mod values;
pub mod waiting;
