//! What tokens of the grammar declare, connect and assign, before names are looked up.

pub mod declarations;
pub mod modules;
pub mod parts;
pub mod pieces;
pub mod statements;
pub mod written;
