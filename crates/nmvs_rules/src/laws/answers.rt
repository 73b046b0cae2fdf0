//! Laws on replies.
ghost use Rattle.std.specs.Prelude.{◌≡◌, ◌≢◌, ◌↔◌, ◌+◌, ℕ, Bool, true, IsTrue, IsFalse, List, [], length, filter, find, Some, pos, int_lt};
ghost use Rattle.std.specs.List.{list_any, range_with_len};
ghost use Rattle.nmvs_identifier.specs.Batch.{Batch};
ghost use Rattle.nmvs_identifier.specs.Expiry.{Expiry, expiry_day};
ghost use Rattle.nmvs_identifier.specs.Moment.{day_of};
ghost use Rattle.nmvs_identifier.specs.ProductCode.{ProductCode};
ghost use Rattle.nmvs_identifier.specs.declared.pack.Pack.{Pack};
ghost use Rattle.nmvs_rules.specs.declared.cause.Cause.{Cause};
ghost use Rattle.nmvs_rules.specs.declared.cause.Cause.TheVariants as cause;
ghost use Rattle.nmvs_rules.specs.declared.entry.Entry.{Entry};
ghost use Rattle.nmvs_rules.specs.declared.question.Question.TheVariants.{Upload, OfPack};
ghost use Rattle.nmvs_rules.specs.declared.pack_question.PackQuestion.TheVariants.{Verify, Decommission, Theft, Audit};
ghost use Rattle.nmvs_rules.specs.declared.reason.Reason.{Reason};
ghost use Rattle.nmvs_rules.specs.declared.reply.Reply.TheVariants as reply;
ghost use Rattle.nmvs_rules.specs.declared.put.Put.{Put};
ghost use Rattle.nmvs_rules.specs.Questions.{may_ask};
ghost use Rattle.nmvs_rules.specs.Trail.{alerts_of, is_about};
ghost use Rattle.nmvs_rules.specs.Rules.{reply_of, shown_of, IsLawful};
ghost use Rattle.nmvs_rules.specs.Operations.{uploads, uploads_code, binds, last_operation, alarm, alert_number};
ghost use Rattle.nmvs_rules.specs.Laws.{IsUploadedWith, IsUnlocked, IsGenuine, IsHeldBy, IsRevertible, AsksAuthenticity, AsksLock, alert_numbers};

/// A verification is answered Authentic exactly if the role may verify and the pack is genuine (Articles 11 and 40). A
/// genuine pack was uploaded with the batch and expiry of the answer, and was last uploaded or reverted. Its batch was
/// neither recalled nor withdrawn. On every trail.
pub fn verification()
    ensures { (t : List Entry) (q : Put) (p : Pack) (b : Batch) (x : Expiry) (expired : Bool) →
        q.question ≡ OfPack Verify p →
        (reply_of t q ≡ reply.Authentic b x expired) ↔
        (IsTrue (may_ask q.actor.role q.question) × IsGenuine t p b x
        × (expired ≡ int_lt (expiry_day x.bytes) (pos (day_of q.moment)))) }
{}

/// A user who may ask a verification or decommissioning gets Authentic or Decommissioned, or else the next alert on the
/// product code (Article 36). On every trail. The alert says that the pack is unknown, or how its batch was first
/// locked, or else the last operation on the pack. The same decides whether it is flagged as a potential falsification.
pub fn alerting()
    ensures verification { (t : List Entry) (q : Put) (p : Pack) →
        q.question ≡ OfPack Verify p → IsTrue (may_ask q.actor.role q.question) →
        ((b : Batch) (x : Expiry) (expired : Bool) → reply_of t q ≢ reply.Authentic b x expired) →
        alert_number (reply_of t q) ≡ Some (alerts_of t p.code + 1) }
    ensures decommissioning { (t : List Entry) (q : Put) (p : Pack) (w : Reason) →
        q.question ≡ OfPack (Decommission w) p → IsTrue (may_ask q.actor.role q.question) →
        reply_of t q ≢ reply.Decommissioned →
        alert_number (reply_of t q) ≡ Some (alerts_of t p.code + 1) }
    ensures unknown { (t : List Entry) (q : Put) (p : Pack) →
        AsksAuthenticity p q.question → IsTrue (may_ask q.actor.role q.question) →
        IsFalse (list_any (uploads p) t) →
        reply_of t q ≡ reply.Alert cause.Unknown true (alerts_of t p.code + 1) }
    ensures locked { (t : List Entry) (q : Put) (p : Pack) (b : Batch) (x : Expiry) (lock : Entry)
        (tells : Cause × Bool) →
        AsksAuthenticity p q.question → IsTrue (may_ask q.actor.role q.question) →
        IsUploadedWith t p b x → find (binds p.code b) t ≡ Some lock → alarm lock.put.question ≡ Some tells →
        reply_of t q ≡ reply.Alert tells.0 tells.1 (alerts_of t p.code + 1) }
    ensures own { (t : List Entry) (q : Put) (p : Pack) (b : Batch) (x : Expiry) (last : Entry)
        (tells : Cause × Bool) →
        AsksAuthenticity p q.question → IsTrue (may_ask q.actor.role q.question) →
        IsUploadedWith t p b x → IsUnlocked t p.code b →
        last_operation t p ≡ Some last → alarm last.put.question ≡ Some tells →
        reply_of t q ≡ reply.Alert tells.0 tells.1 (alerts_of t p.code + 1) }
{}

/// In a lawful trail the alerts on a product code have the numbers 1, 2, 3 and so on, in order (after Article 36).
pub fn alerts()
    ensures { (t : List Entry) (c : ProductCode) → IsLawful t →
        alert_numbers t c ≡ range_with_len 1 (alerts_of t c) }
{}

/// The holder of a product code is the authorisation that uploaded it first (Articles 33 and 40; the choice is own).
/// After that upload, an upload, a recall, a withdrawal or a theft report is accepted from the holder alone. On every
/// trail.
pub fn holders()
    ensures uploads { (t : List Entry) (q : Put) (p : Pack) (b : Batch) (x : Expiry) →
        q.question ≡ Upload p b x → IsTrue (list_any (uploads_code p.code) t) →
        reply_of t q ≡ reply.Uploaded → IsHeldBy t p.code q.actor.authorisation }
    ensures locks { (t : List Entry) (q : Put) (c : ProductCode) (b : Batch) (active : ℕ) →
        AsksLock c b q.question → reply_of t q ≡ reply.LockedNow active →
        IsHeldBy t c q.actor.authorisation }
    ensures thefts { (t : List Entry) (q : Put) (p : Pack) →
        q.question ≡ OfPack Theft p → reply_of t q ≡ reply.MarkedStolen →
        IsHeldBy t p.code q.actor.authorisation }
{}

/// An audit by a user who may ask it shows the entries about its pack, in their order (Articles 35, 36(i) and 37(f)).
/// Its reply has their number. An audit by any other user shows none, and no other question shows any. On every trail.
pub fn auditing()
    ensures shown { (t : List Entry) (q : Put) (p : Pack) →
        q.question ≡ OfPack Audit p → IsTrue (may_ask q.actor.role q.question) →
        (shown_of t q ≡ filter (is_about p) t)
        × (reply_of t q ≡ reply.Shown (length (shown_of t q))) }
    ensures hidden { (t : List Entry) (q : Put) →
        IsFalse (may_ask q.actor.role q.question) → shown_of t q ≡ [] }
    ensures others { (t : List Entry) (q : Put) →
        ((p : Pack) → q.question ≢ OfPack Audit p) → shown_of t q ≡ [] }
{}
