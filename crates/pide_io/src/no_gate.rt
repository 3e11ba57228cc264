//! The gate that holds nobody.
use pide_base::{Gate, Point};

/// Lets every worker pass at once.
#[derive(Clone, Copy, Debug, PartialEq, Eq)]
pub struct NoGate;

impl Gate for NoGate {
    fn at(&self, _worker: u32, _point: Point) {}
}
