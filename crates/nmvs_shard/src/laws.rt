//! Laws on the outcome of a question. A function here does nothing: its contract is the law.
//!
//! `Shard::ask` promises such an outcome, and so does each call above it that asks a shard.
ghost use Rattle.std.specs.Prelude.{◌≡◌, IsTrue, IsFalse, List, Option};
ghost use Rattle.nmvs_identifier.specs.Batch.{Batch};
ghost use Rattle.nmvs_identifier.specs.Expiry.{Expiry};
ghost use Rattle.nmvs_identifier.specs.ProductCode.{ProductCode};
ghost use Rattle.nmvs_identifier.specs.declared.pack.Pack.{Pack};
ghost use Rattle.nmvs_rules.specs.declared.entry.Entry.{Entry};
ghost use Rattle.nmvs_rules.specs.declared.printed.Printed.{Printed};
ghost use Rattle.nmvs_rules.specs.declared.put.Put.{Put};
ghost use Rattle.nmvs_rules.specs.Laws.{AsksAuthenticity, IsGenuine};
ghost use Rattle.nmvs_rules.specs.Questions.{may_ask};
ghost use Rattle.nmvs_rules.specs.Repeats.{was_asked};
ghost use Rattle.nmvs_rules.specs.Trail.{alerts_of};
ghost use Rattle.nmvs_shard.specs.declared.shard.Outcome.{Outcome};
ghost use Rattle.nmvs_shard.specs.Asking.{Asks, IsAlerted};

/// No alert is lost, whatever is printed on the pack (Articles 35(1)(g) and 36(b)). A user who may asks to verify or decommission a
/// pack that is not authentic. Then the next alert on its product code is recorded, and is the reply. A copy by its tag is the one
/// exception: its user asked about the pack with that tag at most a day away.
pub fn no_alert_is_lost()
    ensures { (old new : List Entry) (q : Put) (p : Pack) (printed : Option Printed) (outcome : Outcome) →
        Asks old q printed new outcome → AsksAuthenticity p q.question → IsTrue (may_ask q.actor.role q.question) →
        ((b : Batch) (x : Expiry) → ¬ IsGenuine old p b x) → IsFalse (was_asked old q) →
        IsAlerted old q p new outcome }
{}

/// A late copy raises no alert (own). If a user asked about the pack with the tag at most a day away, the question adds no alert.
pub fn late_copies()
    ensures { (old new : List Entry) (q : Put) (printed : Option Printed) (outcome : Outcome) (c : ProductCode) →
        Asks old q printed new outcome → IsTrue (was_asked old q) → alerts_of new c ≡ alerts_of old c }
{}
