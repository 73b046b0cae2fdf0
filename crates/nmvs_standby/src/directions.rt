//! The orders of an operator to a server that follows.
use nmvs_operator::{Figure, Fixed, Order, Perform, ServiceFault};
use std::alloc::Global;
use std::sync::atomic::{AtomicBool, Ordering};

/// The orders of an operator to a server that follows, for the thread that follows.
#[derive(Drop)]
pub(crate) struct Directions {
    takes_over: AtomicBool,
    stops: AtomicBool,
    /// Whether there is more of the log, so that the next poll does not wait.
    hurries: AtomicBool,
}

impl Directions {
    /// No order.
    pub(crate) fn new() -> Directions {
        Directions {
            takes_over: AtomicBool::new(false),
            stops: AtomicBool::new(false),
            hurries: AtomicBool::new(false),
        }
    }

    /// Whether the operator wants the server to take over. Each order is seen once.
    pub(crate) fn takes_over(&self) -> bool {
        self.takes_over.swap(false, Ordering::SeqCst)
    }

    /// Notes whether there is more of the log.
    pub(crate) fn note_more(&self, is_more: bool) {
        self.hurries.store(is_more, Ordering::SeqCst);
    }

    /// Whether the next poll does not wait.
    pub(crate) fn hurries(&self) -> bool {
        self.hurries.load(Ordering::SeqCst)
    }

    /// Whether the operator ended the server.
    pub(crate) fn is_stopped(&self) -> bool {
        self.stops.load(Ordering::SeqCst)
    }
}

/// The operator's side of the orders. (No contract says what an atomic value holds.)
#[derive(Clone, Copy)]
pub(crate) struct Director<'d>(pub(crate) &'d Directions);

impl<'d> Perform for Director<'d> {
    ghost use Rattle.nmvs_standby.specs.Orders.{EndsFollowing};

    ghost does = { λ old order end new. EndsFollowing order end };

    fn perform(&mut self, alloc: Global, order: &Order<'_>) -> Result<Vec<Figure>, ServiceFault> {
        match order {
            Order::Fixed(Fixed::TakeOver) => {
                self.0.takes_over.store(true, Ordering::SeqCst);
                Ok(Vec::new(alloc))
            }
            Order::Fixed(Fixed::Stop) => {
                self.0.stops.store(true, Ordering::SeqCst);
                Ok(Vec::new(alloc))
            }
            _ => Err(ServiceFault::Standby),
        }
    }
}
