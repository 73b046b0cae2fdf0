//! Laws on questions that are asked again with the same tag (own).
ghost use Rattle.std.specs.Prelude.{◌≡◌, ◌↔◌, ◌<◌, ◌≤◌, ℕ, Bool, IsTrue, IsFalse, List, ◌∷◌, ◌++◌, length, Some, None, take};
ghost use Rattle.std.specs.List.{All, list_any};
ghost use Rattle.nmvs_identifier.specs.Batch.{Batch};
ghost use Rattle.nmvs_identifier.specs.Expiry.{Expiry};
ghost use Rattle.nmvs_identifier.specs.Name.{Name};
ghost use Rattle.nmvs_identifier.specs.Tag.{Tag};
ghost use Rattle.nmvs_identifier.specs.declared.pack.Pack.{Pack};
ghost use Rattle.nmvs_rules.specs.declared.entry.Entry.{Entry};
ghost use Rattle.nmvs_rules.specs.declared.put.Put.{Put};
ghost use Rattle.nmvs_rules.specs.declared.repeat.Repeat.TheVariants as repeat;
ghost use Rattle.nmvs_rules.specs.declared.question.Question.TheVariants.{OfPack};
ghost use Rattle.nmvs_rules.specs.declared.pack_question.PackQuestion.TheVariants.{Verify};
ghost use Rattle.nmvs_rules.specs.declared.reply.Reply.{Reply};
ghost use Rattle.nmvs_rules.specs.declared.reply.Reply.TheVariants as reply;
ghost use Rattle.nmvs_rules.specs.Laws.{IsGenuine};
ghost use Rattle.nmvs_rules.specs.Questions.{pack_of};
ghost use Rattle.nmvs_rules.specs.Trail.{about_of};
ghost use Rattle.nmvs_rules.specs.Rules.{reply_of, IsLawful};
ghost use Rattle.nmvs_rules.specs.Repeats.{answer_of, is_tagged, repeat_of, tells_state, AreInDay, AreNew, IsRepeated, without_tag, without_tags};

/// A question with a tag counts once for a day, if it is carried out, refused or answered with an alert. In this trail
/// each question was looked for before it was put. The next entry about the pack with that user and tag is more than a
/// day apart, or follows at least 16 others about it.
pub fn once()
    ensures { (u v w : List Entry) (e f : Entry) (p : Pack) (user : Name) (g : Tag) →
        AreNew (u ++ (e ∷ v) ++ (f ∷ w)) → IsTrue (is_tagged p user g e) → IsTrue (is_tagged p user g f) →
        IsFalse (list_any (is_tagged p user g) v) → IsFalse (tells_state e.reply) →
        AreInDay e.put.moment f.put.moment → 16 ≤ about_of v p }
{}

/// Such a question is answered from its entry if it is asked again with its tag. It has to be at most a day apart, and
/// before 16 others about the pack. The clock may have been set back meanwhile.
pub fn asked_again()
    ensures { (u v : List Entry) (e : Entry) (p : Pack) (g : Tag) (moment : ℕ) →
        pack_of e.put.question ≡ Some p → e.put.tag ≡ Some g →
        IsFalse (list_any (is_tagged p e.put.user g) v) → about_of v p < 16 → IsFalse (tells_state e.reply) →
        AreInDay e.put.moment moment →
        repeat_of (u ++ e ∷ v) (record e.put { moment = moment }) ≡ repeat.Same (length u) e.reply }
{}

/// A reply that gives the state of a pack is the rules' reply on the trail of that moment, even to a question asked
/// again. So the reply is Authentic only for a genuine pack (Articles 11 and 40). Such a pack was uploaded with that
/// batch and expiry, and was last uploaded or reverted. Its batch was neither recalled nor withdrawn. On every trail.
pub fn states_are_current()
    ensures state { (t : List Entry) (q : Put) (said : Reply) → IsTrue (tells_state said) →
        answer_of t q ≡ Some said → reply_of t q ≡ said }
    ensures authentic { (t : List Entry) (q : Put) (p : Pack) (b : Batch) (x : Expiry) (expired : Bool) →
        q.question ≡ OfPack Verify p → answer_of t q ≡ Some (reply.Authentic b x expired) → IsGenuine t p b x }
{}

/// A repeated reply is that of an earlier entry, at most a day apart. The entry has the same question, user, tag and
/// capacity. It does not give the state of a pack. In a lawful trail it is the reply of the rules there.
pub fn repetition()
    ensures entry { (t : List Entry) (q : Put) (place : ℕ) (reply : Reply) →
        repeat_of t q ≡ repeat.Same place reply → IsRepeated t q place reply }
    ensures rules { (t : List Entry) (q : Put) (place : ℕ) (reply : Reply) →
        IsLawful t → (again : IsRepeated t q place reply) →
        reply ≡ reply_of (take place t) again.entry.put }
{}

/// Tags change no reply of the rules. So a trail is lawful exactly if it is lawful without its tags. In a trail without tags
/// each question was new.
pub fn untagged()
    ensures replies { (t : List Entry) (q : Put) →
        reply_of (without_tags t) (without_tag q) ≡ reply_of t q }
    ensures lawful { (t : List Entry) → IsLawful (without_tags t) ↔ IsLawful t }
    ensures new { (t : List Entry) → All (λ e. e.put.tag ≡ None) t → AreNew t }
{}
