//! The bytes of a library as tokens.

pub mod characters;
pub mod lexing;
pub mod rest;
pub mod scan;
pub mod tokens;
