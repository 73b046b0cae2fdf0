//! A server, as its operator's orders see it.
ghost use Rattle.std.specs.Prelude.{List, ℕ, Option, Result, IfOk, MatchResult, Ok, Err};
ghost use Rattle.std.specs.Result.{result_err};
ghost use Rattle.nmvs_operator.specs.Commands.{HasFigures};
ghost use Rattle.nmvs_operator.specs.declared.figures.Figure.{Figure as TheFigure};
ghost use Rattle.nmvs_operator.specs.declared.order.Order.{Order as TheOrder};
ghost use Rattle.nmvs_operator.specs.declared.service.ServiceFault.{ServiceFault as TheFault};

use crate::{Figure, Order, UserCounts};
use nmvs_directory::Look;
use std::alloc::{AllocError, Global};
use thiserror::Error;

/// Why the server did not do what an order asks of it.
#[derive(Clone, Copy, Debug, PartialEq, Eq, Error)]
pub enum ServiceFault {
    #[error("the journal of the users cannot be written")]
    Journal,
    #[error("the export cannot be written")]
    Write,
    #[error("there is no memory for it")]
    Memory,
    #[error("the clock gives no moment")]
    Clock,
    #[error("the users file cannot be read")]
    Read,
    #[error("there is no users file")]
    NoFile,
    #[error("no engine keeps the log on several machines")]
    Engine,
    #[error("the server follows another")]
    Standby,
    #[error("the engine confirmed no trim")]
    Untrimmed,
}

impl From<AllocError> for ServiceFault {
    ghost use Rattle.std.specs.Prelude.{◌≡◌};
    ghost use Rattle.nmvs_operator.specs.declared.service.ServiceFault.TheVariants.{Memory};

    ghost from_gives = { λ e f. f ≡ Memory };

    fn from(_: AllocError) -> ServiceFault {
        ServiceFault::Memory
    }
}

/// A server that carries out orders: one that answers, or one that follows another.
pub trait Perform {
    // Whether a server in this state may carry out this order with these figures, or fail so, and be in that state then.
    ghost does: { Self → TheOrder → Result (List TheFigure) TheFault → Self → Type 0 };

    /// Carries out an order, and returns the figures of its answer. Of a change of the users it keeps the change beyond its own
    /// end. It does nothing at `USERS`, `RELOAD` and `HELP`.
    ///
    /// # Errors
    ///
    /// The server did not do what the order asks.
    fn perform(&mut self, alloc: Global, order: &Order<'_>) -> Result<Vec<Figure>, ServiceFault>
        ensures does { MatchResult result (λ figures. does self.old order.now (Ok figures.items) self.new)
            (λ fault. does self.old order.now (Err fault) self.new) }
        ensures figures { IfOk result (λ figures. HasFigures order.now figures.items) };
}

/// A server that answers.
pub trait Service: Perform {
    // Whether a server in this state may keep the changes of these lines of a users file, or fail so. It is in that
    // state then.
    ghost keeps: { Self → List ℕ → Option TheFault → Self → Type 0 };

    /// Keeps the changes of these lines of a users file as those of orders.
    ///
    /// # Errors
    ///
    /// It does not keep them.
    fn keep_file(&mut self, lines: &[u8]) -> Result<(), ServiceFault>
        ensures { keeps self.old lines.now (result_err result) self.new };

    /// The bytes of the users file, as it is now.
    fn read_users(&self, alloc: Global) -> Result<Vec<u8>, ServiceFault>;

    /// Notes the number of users, after many changes of them were published.
    fn note_users(&self, counts: UserCounts);

    /// Notes the answers about a user before and after its change was published.
    fn note_user(&self, before: Look, after: Look);
}
