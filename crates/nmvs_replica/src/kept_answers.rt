//! Answers that are given again.
use nmvs_identifier::Moment;
use std::alloc::{AllocError, Global};

/// For how many seconds the answer to an act with a key is given again: a day.
const SECONDS_KEPT: i64 = 86_400;

/// The answer to an act that had a key.
#[derive(Drop)]
struct KeptAnswer {
    moment: Moment,
    /// What its line says besides its version, its number of entries and its moment: its author, the act and the key.
    act: Vec<u8>,
    alerts: u64,
}

/// The answers to acts that had a key, the oldest first.
#[derive(Drop)]
pub(crate) struct KeptAnswers(Vec<KeptAnswer>);

impl KeptAnswers {
    /// None.
    pub fn new(alloc: Global) -> KeptAnswers {
        KeptAnswers(Vec::new(alloc))
    }

    /// The number of alerts in the answer to the act of this line, if the same act by the same author with the same key was answered
    /// less than a day ago.
    pub fn find(&self, line: &[u8], now: Moment) -> Option<u64> {
        let act = act_in(line);
        for kept in &self.0 {
            if is_fresh(kept.moment, now) && *kept.act.as_slice() == *act {
                return Some(kept.alerts);
            }
        }
        None
    }

    /// Keeps the answer to the act of this line, and drops those that are a day old.
    ///
    /// # Errors
    ///
    /// There is no memory. It is not kept.
    pub fn keep(
        &mut self,
        alloc: Global,
        line: &[u8],
        moment: Moment,
        alerts: u64,
    ) -> Result<(), AllocError> {
        self.0.retain(|kept| is_fresh(kept.moment, moment));
        let mut act = Vec::new(alloc);
        act.extend_from_slice(act_in(line))?;
        match self.0.push(KeptAnswer {
            moment,
            act,
            alerts,
        }) {
            Ok(()) => Ok(()),
            Err(_) => Err(AllocError),
        }
    }
}

/// Whether what was answered at a moment is given again now.
fn is_fresh(moment: Moment, now: Moment) -> bool {
    now.seconds() < moment.seconds().saturating_add(SECONDS_KEPT)
}

fn act_in(line: &[u8]) -> &[u8] {
    line.splitn(4, |byte| *byte == b',').nth(3).unwrap_or(line)
}
