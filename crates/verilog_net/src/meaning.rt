//! What modules without a fault mean: their ports, nets, instances and assignments.

pub mod bits;
pub mod constants;
pub mod instances;
pub mod meant;
pub mod nets;
pub mod ports;
