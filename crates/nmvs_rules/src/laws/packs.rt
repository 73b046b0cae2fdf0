//! Laws on the course of a pack.
ghost use Rattle.std.specs.Prelude.{◌≡◌, ◌↔◌, IsTrue, IsFalse, List, [], ◌∷◌, ◌++◌, length, Option, Some, None, is_some, IsSomeAnd, count_by, if◌then◌else◌};
ghost use Rattle.std.specs.List.{list_any};
ghost use Rattle.nmvs_identifier.specs.Batch.{Batch};
ghost use Rattle.nmvs_identifier.specs.Expiry.{Expiry};
ghost use Rattle.nmvs_identifier.specs.declared.pack.Pack.{Pack};
ghost use Rattle.nmvs_rules.specs.declared.entry.Entry.{Entry};
ghost use Rattle.nmvs_rules.specs.declared.facts.Known.{Known};
ghost use Rattle.nmvs_rules.specs.declared.printed.Printed.{Printed};
ghost use Rattle.nmvs_rules.specs.declared.question.Question.{Question};
ghost use Rattle.nmvs_rules.specs.Printed.{differs_on};
ghost use Rattle.nmvs_rules.specs.Questions.{pack_of};
ghost use Rattle.nmvs_rules.specs.Trail.{known};
ghost use Rattle.nmvs_rules.specs.Rules.{IsLawful};
ghost use Rattle.nmvs_rules.specs.Operations.{uploads, decommissions, supplies, reverts, binds, goes_on, operates};
ghost use Rattle.nmvs_rules.specs.Laws.{IsUploadedWith, IsMovedOn, IsBorn};

/// In a lawful trail a pack has one accepted upload if it is known, and none if it is not (Articles 4, 11 and 35(3)). So the
/// counts of a batch are numbers of packs.
pub fn one_birth()
    ensures { (t : List Entry) (p : Pack) → IsLawful t →
        count_by (uploads p) t ≡ (if is_some (known t p) then 1 else 0) }
{}

/// An entry that is no operation on a pack leaves the values known of it, and only its upload makes an unknown pack
/// known. This holds on every trail. In a lawful trail an operation on a known pack gives it the mark of the entry and
/// the own status that the operation leaves. This status may follow the former one (Articles 12, 13, 22, 25, 33 and
/// 40).
pub fn course()
    ensures kept { (t : List Entry) (e : Entry) (p : Pack) → IsFalse (operates p e) →
        known (t ++ e ∷ []) p ≡ known t p }
    ensures unknown { (t : List Entry) (e : Entry) (p : Pack) →
        known t p ≡ None → IsFalse (uploads p e) → known (t ++ e ∷ []) p ≡ None }
    ensures born { (t : List Entry) (e : Entry) (p : Pack) →
        known t p ≡ None → IsTrue (uploads p e) →
        IsSomeAnd (known (t ++ e ∷ []) p) (IsBorn (length t) e) }
    ensures moved { (before after : List Entry) (e : Entry) (p : Pack) (k : Known) →
        IsLawful (before ++ e ∷ after) → known before p ≡ Some k → IsTrue (operates p e) →
        IsSomeAnd (known (before ++ e ∷ []) p) (IsMovedOn k (length before) e) }
{}

/// The batch and the expiry date printed on a pack differ from those of its upload exactly if one of them is written otherwise.
/// Then they differ for ever, since no entry changes the values of an upload (after Article 4). On every trail.
pub fn differs_for_ever()
    ensures exact { (t : List Entry) (q : Question) (p : Pack) (b : Batch) (x : Expiry) (printed : Printed) →
        pack_of q ≡ Some p → IsUploadedWith t p b x →
        IsFalse (differs_on t q (Some printed)) ↔ ((printed.batch ≡ b) × (printed.expiry ≡ x)) }
    ensures later { (t later : List Entry) (q : Question) (printed : Option Printed) →
        IsTrue (differs_on t q printed) → IsTrue (differs_on (t ++ later) q printed) }
{}

/// Between two decommissionings of a pack in a lawful trail stands a reversion (Articles 12 and 13).
pub fn decommissioned_once()
    ensures { (before between after : List Entry) (first second : Entry) (p : Pack) →
        IsLawful (before ++ first ∷ between ++ second ∷ after) →
        IsTrue (decommissions p first) → IsTrue (decommissions p second) →
        IsTrue (list_any (reverts p) between) }
{}

/// No pack is supplied twice. A supply to the public is a decommissioning or a later handover. After it in a lawful trail
/// the pack is never decommissioned, handed over, reverted or answered Authentic (Articles 11, 13 and 25).
pub fn supplied_once()
    ensures { (before between after : List Entry) (supply later : Entry) (p : Pack) →
        IsLawful (before ++ supply ∷ between ++ later ∷ after) → IsTrue (supplies p supply) →
        IsFalse (goes_on p later) }
{}

/// A recall or withdrawal binds for ever (Articles 13, 25 and 40). After it in a lawful trail no pack of its batch is
/// decommissioned, handed over, reverted or answered Authentic. This holds for packs uploaded earlier and later.
pub fn recall_binds()
    ensures { (before between after : List Entry) (recall later : Entry)
        (p : Pack) (b : Batch) (x : Expiry) →
        IsLawful (before ++ recall ∷ between ++ later ∷ after) → IsTrue (binds p.code b recall) →
        IsUploadedWith (before ++ recall ∷ between ++ later ∷ after) p b x →
        IsFalse (goes_on p later) }
{}
