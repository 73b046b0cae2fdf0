//! Laws on accepted questions.
ghost use Rattle.std.specs.Prelude.{◌≡◌, ◌↔◌, ℕ, IsTrue, List};
ghost use Rattle.nmvs_identifier.specs.Batch.{Batch};
ghost use Rattle.nmvs_identifier.specs.Expiry.{Expiry};
ghost use Rattle.nmvs_identifier.specs.ProductCode.{ProductCode};
ghost use Rattle.nmvs_identifier.specs.declared.pack.Pack.{Pack};
ghost use Rattle.nmvs_rules.specs.declared.entry.Entry.{Entry};
ghost use Rattle.nmvs_rules.specs.declared.question.Question.TheVariants.{Upload, OfPack};
ghost use Rattle.nmvs_rules.specs.declared.pack_question.PackQuestion.TheVariants.{Decommission, Handover, Revert, Theft};
ghost use Rattle.nmvs_rules.specs.declared.reason.Reason.{Reason};
ghost use Rattle.nmvs_rules.specs.declared.reply.Reply.TheVariants as reply;
ghost use Rattle.nmvs_rules.specs.declared.role.Role.TheVariants as role;
ghost use Rattle.nmvs_rules.specs.declared.put.Put.{Put};
ghost use Rattle.nmvs_rules.specs.Questions.{may_ask};
ghost use Rattle.nmvs_rules.specs.Rules.{reply_of};
ghost use Rattle.nmvs_rules.specs.Laws.{IsGenuine, IsRevertible, IsUploadable, IsSuppliable, IsLockable, IsReportable, AsksLock, circulating};

/// An upload is accepted exactly if three conditions hold (Articles 4, 33 and 35(3); who may upload it is own). A
/// holder asks for it. The pack was not uploaded before. Nobody uploaded its product code, or the same authorisation
/// did so first. On every trail.
pub fn uploading()
    ensures { (t : List Entry) (q : Put) (p : Pack) (b : Batch) (x : Expiry) → q.question ≡ Upload p b x →
        (reply_of t q ≡ reply.Uploaded) ↔
        ((q.actor.role ≡ role.Holder) × IsUploadable t p q.actor.authorisation) }
{}

/// A decommissioning is accepted exactly if the role may ask it and a verification would be answered Authentic
/// (Articles 22 and 25). On every trail.
pub fn decommissioning()
    ensures { (t : List Entry) (q : Put) (p : Pack) (w : Reason) → q.question ≡ OfPack (Decommission w) p →
        (reply_of t q ≡ reply.Decommissioned) ↔
        (IsTrue (may_ask q.actor.role q.question)
        × ((b : Batch) × (x : Expiry) × IsGenuine t p b x)) }
{}

/// A handover is accepted exactly if these conditions hold (own, after Articles 25 and 40). A pharmacy asks for it. The
/// last operation on the pack decommissioned it to be held, under the same authorisation and in the same premises. Its
/// batch was neither recalled nor withdrawn. On every trail.
pub fn handover()
    ensures { (t : List Entry) (q : Put) (p : Pack) → q.question ≡ OfPack Handover p →
        (reply_of t q ≡ reply.HandedOver) ↔
        ((q.actor.role ≡ role.Pharmacy) × IsSuppliable t p q) }
{}

/// A reversion is accepted exactly if the role may revert and all that Article 13(1) asks for is met. On every
/// trail.
pub fn reversion()
    ensures { (t : List Entry) (q : Put) (p : Pack) → q.question ≡ OfPack Revert p →
        (reply_of t q ≡ reply.Reverted) ↔
        (IsTrue (may_ask q.actor.role q.question) × IsRevertible t p q) }
{}

/// A recall or withdrawal is accepted exactly if three conditions hold. The product code's holder asks for it, in the
/// role of a holder. A pack of the batch was uploaded. The batch was neither recalled nor withdrawn. The reply has the
/// number of packs of the batch that circulate (Article 40). On every trail.
pub fn locking()
    ensures { (t : List Entry) (q : Put) (c : ProductCode) (b : Batch) (active : ℕ) → AsksLock c b q.question →
        (reply_of t q ≡ reply.LockedNow active) ↔
        ((q.actor.role ≡ role.Holder) × IsLockable t c b q.actor.authorisation
        × (active ≡ circulating t c b)) }
{}

/// A theft report is accepted exactly if three conditions hold (Article 40). The product code's holder asks for it, in
/// the role of a holder. The pack was uploaded. The last operation on it was no theft report. On every trail.
pub fn theft()
    ensures { (t : List Entry) (q : Put) (p : Pack) → q.question ≡ OfPack Theft p →
        (reply_of t q ≡ reply.MarkedStolen) ↔
        ((q.actor.role ≡ role.Holder) × IsReportable t p q.actor.authorisation) }
{}
