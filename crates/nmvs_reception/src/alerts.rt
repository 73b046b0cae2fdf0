//! The flagged alerts that the workers of a server raise.
ghost use Rattle.std.specs.Prelude.{IfOk, List};
ghost use Rattle.nmvs_identifier.specs.Name.{Name as TheName};
ghost use Rattle.nmvs_reception.specs.Alerts.{FindsMost};
ghost use Rattle.nmvs_reception.specs.declared.tally.Raised.{Raised as TheRaised};

use crate::tally::{Raised, Tally, keep_most};
use log::{Log, info};
use nmvs_identifier::Name;
use nmvs_reports::AlertName;
use nmvs_rules::{Cause, Put};
use nmvs_words::cause_word;
use std::alloc::{AllocError, Global};
use std::sync::{Mutex, Wait};

/// The users who have raised flagged alerts since the start. All workers share it, and take its lock only at a flagged alert.
#[derive(Drop)]
pub struct Alerts {
    tally: Mutex<Tally<Global>>,
    logs_users: bool,
}

impl Alerts {
    /// No alert yet. The event of an alert has its user and premises if these are to be logged.
    pub fn new(alloc: Global, logs_users: bool) -> Alerts {
        Alerts {
            tally: Mutex::new(Tally::new(alloc)),
            logs_users,
        }
    }

    /// Counts and logs an alert that is flagged as a potential falsification (Article 36). It waits for the lock. If memory for
    /// its user is refused, the alert is not counted, and its reply stays.
    pub(crate) fn note<R: Wait + Log>(&self, rt: &R, put: &Put, cause: Cause, number: u64) {
        let (user, premises) = (&put.user, &put.actor.premises);
        let _uncounted = self.tally.lock(rt).note(user, premises);
        let (code, cause) = (put.question.code(), cause_word(cause));
        let alert = AlertName { code, number };
        let code = code.text();
        if self.logs_users {
            let (user, premises) = (user.text(), premises.text());
            info!(rt; alert:% = alert, code, cause, number, user, premises; "alert");
        } else {
            info!(rt; alert:% = alert, code, cause, number; "alert");
        }
    }

    /// Logs that the batch or the expiry date printed on a pack is not that of its upload (Article 37(c)). No alert is raised.
    pub(crate) fn note_mismatch<R: Log>(&self, rt: &R, put: &Put) {
        let code = put.question.code();
        let code = code.text();
        if self.logs_users {
            let (user, premises) = (put.user.text(), put.actor.premises.text());
            info!(rt; code, user, premises; "printed values differ");
        } else {
            info!(rt; code; "printed values differ");
        }
    }

    /// The users who have raised most, most first, at most this number of them. It waits for the lock, and lets it go before it
    /// sorts.
    ///
    /// # Errors
    ///
    /// Memory for a list of all such users was refused.
    pub fn most<R: Wait>(
        &self,
        rt: &R,
        alloc: Global,
        most: usize,
    ) -> Result<Vec<(Name, Raised)>, AllocError>
        ensures { IfOk result (λ found. (users : List (TheName × TheRaised)) × FindsMost most users found.items) }
    {
        let listed = self.tally.lock(rt).list(alloc);
        let mut list = listed?;
        keep_most(&mut list, most)?;
        Ok(list)
    }
}
