//! Who is told where processors stand.

use alone_run::turns::Point;

/// It is told where each processor stands in its turn. That one doesn't hold the board then.
pub trait Gate {
    fn at(&self, cpu: u32, point: Point);
}

/// Nobody is told.
#[derive(Clone, Copy)]
pub struct NoGate;

impl Gate for NoGate {
    fn at(&self, _cpu: u32, _point: Point) {}
}
