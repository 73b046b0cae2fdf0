//! Laws on trails, their parts and their merging.
ghost use Rattle.std.specs.Prelude.{◌≡◌, ◌↔◌, ℕ, Bool, IsFalse, List};
ghost use Rattle.std.specs.List.{list_any};
ghost use Rattle.nmvs_rules.specs.declared.entry.Entry.{Entry};
ghost use Rattle.nmvs_rules.specs.declared.reply.Reply.{Reply};
ghost use Rattle.nmvs_rules.specs.declared.put.Put.{Put};
ghost use Rattle.nmvs_rules.specs.Questions.{code_of};
ghost use Rattle.nmvs_rules.specs.Rules.{reply_of, answered, IsLawful};
ghost use Rattle.nmvs_rules.specs.Laws.{part_of, kept, placed_at, asks_handover, IsMerging, IsApart};
ghost use Rattle.nmvs_rules.specs.before_handover.Rules as before_handover;

/// An entry keeps the question as it was put, with its moment, its user and the user's capacity, and the reply (Article
/// 35).
pub fn recording()
    ensures { (q : Put) (r : Reply) → ((answered q r).put ≡ q) × ((answered q r).reply ≡ r) }
{}

/// The reply to a question rests on the entries with its product code alone. On every trail.
pub fn locality()
    ensures { (t : List Entry) (q : Put) →
        reply_of (part_of t (code_of q.question)) q ≡ reply_of t q }
{}

/// A merging of lawful trails is lawful, if no product code stands in two of them.
pub fn merging()
    ensures { (trails : ℕ → List Entry) (t : List Entry) → IsMerging trails t → IsApart trails →
        ((i : ℕ) → IsLawful (trails i)) → IsLawful t }
{}

/// A trail is lawful if each part of it is, whichever way the product codes are placed in the parts.
pub fn placing()
    ensures { (place : List ℕ → ℕ) (t : List Entry) →
        ((i : ℕ) → IsLawful (placed_at place i t)) → IsLawful t }
{}

/// A part of a lawful trail is lawful, if it keeps or drops each product code whole.
pub fn parts()
    ensures { (keep : List ℕ → Bool) (t : List Entry) → IsLawful t → IsLawful (kept keep t) }
{}

/// The rules of the time before handovers stand in `specs/before_handover`. A trail in which no question is a handover
/// is lawful exactly if it is lawful by those rules. So the exports of that time stay what they were.
pub fn old_trails()
    ensures { (t : List Entry) → IsFalse (list_any asks_handover t) →
        IsLawful t ↔ before_handover.IsLawful t }
{}
