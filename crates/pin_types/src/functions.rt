//! The function of an output of a library cell (Liberty, `function`).

use sdc_base::{Duplicate, NoMemory};
use sqlite_items::Boxed;
use std::alloc::Global;

/// A Boolean function of a cell's pins, which are named by their places in the cell.
#[derive(Drop)]
pub enum Expr {
    Zero,
    One,
    Pin(u16),
    Not(Boxed<Expr>),
    And(Boxed<Expr>, Boxed<Expr>),
    Or(Boxed<Expr>, Boxed<Expr>),
    Xor(Boxed<Expr>, Boxed<Expr>),
}

impl Duplicate for Expr {
    fn copy(&self, alloc: Global) -> Result<Expr, NoMemory> {
        match self {
            Expr::Zero => Ok(Expr::Zero),
            Expr::One => Ok(Expr::One),
            Expr::Pin(pin) => Ok(Expr::Pin(*pin)),
            Expr::Not(inner) => {
                let inner = inner.get().copy(alloc)?;
                let inner = Boxed::new(alloc, inner)?;
                Ok(Expr::Not(inner))
            }
            Expr::And(left, right) => {
                let left = left.get().copy(alloc)?;
                let left = Boxed::new(alloc, left)?;
                let right = right.get().copy(alloc)?;
                let right = Boxed::new(alloc, right)?;
                Ok(Expr::And(left, right))
            }
            Expr::Or(left, right) => {
                let left = left.get().copy(alloc)?;
                let left = Boxed::new(alloc, left)?;
                let right = right.get().copy(alloc)?;
                let right = Boxed::new(alloc, right)?;
                Ok(Expr::Or(left, right))
            }
            Expr::Xor(left, right) => {
                let left = left.get().copy(alloc)?;
                let left = Boxed::new(alloc, left)?;
                let right = right.get().copy(alloc)?;
                let right = Boxed::new(alloc, right)?;
                Ok(Expr::Xor(left, right))
            }
        }
    }
}
