//! Elaboration: what stands in a design, with the first fault of its instances.

pub(crate) mod connections;
pub(crate) mod counts;
pub(crate) mod elaboration;
pub(crate) mod expansion;
pub(crate) mod hierarchy;
pub(crate) mod instances;
pub(crate) mod sizes;
pub(crate) mod steps;
pub(crate) mod terminals;
pub(crate) mod walk;
