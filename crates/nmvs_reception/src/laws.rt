//! Laws on who may ask, and on the order in which a question is refused. A function here does nothing: its contract is the law.
ghost use Rattle.std.specs.Prelude.{◌≡◌, ◌↔◌, ℕ, IsTrue, IsFalse, List};
ghost use Rattle.std.specs.List.{list_any};
ghost use Rattle.nmvs_messages.specs.declared.answer.Turn.{Turn};
ghost use Rattle.nmvs_messages.specs.declared.ask.Ask.{Ask};
ghost use Rattle.nmvs_messages.specs.declared.peer.Peer.{Peer};
ghost use Rattle.nmvs_rules.specs.declared.actor.Actor.{Actor};
ghost use Rattle.nmvs_rules.specs.declared.entry.Entry.{Entry};
ghost use Rattle.nmvs_rules.specs.declared.put.Put.{Put};
ghost use Rattle.nmvs_rules.specs.declared.refusal.Refusal.TheVariants as refusal;
ghost use Rattle.nmvs_rules.specs.declared.reply.Reply.TheVariants as reply;
ghost use Rattle.nmvs_rules.specs.declared.role.Role.TheVariants as role;
ghost use Rattle.nmvs_rules.specs.Repeats.{same_role};
ghost use Rattle.nmvs_rules.specs.Rules.{reply_of};
ghost use Rattle.nmvs_reception.specs.Desk.{is_report, with_seen, with_sights, Admits, DeskView, Refuses};
ghost use Rattle.nmvs_reception.specs.Refusals.{askers, first_reason, reasons, refusal_in};

/// On every trail, a question is refused for its role exactly if its role is not among those that may ask it. The rule
/// is own, after the Articles that `askers` names. So nothing of the pack is looked at first.
pub fn who_may_ask()
    ensures { (t : List Entry) (q : Put) →
        (reply_of t q ≡ reply.Refused refusal.Role) ↔ IsFalse (list_any (same_role q.actor.role) (askers q.question)) }
{}

/// On every trail, the reply to a question gives the first reason of the list that applies. No question is refused for
/// another (own).
pub fn first_reasons()
    ensures { (t : List Entry) (q : Put) → refusal_in (reply_of t q) ≡ first_reason (reasons t q) }
{}

/// The reason to turn a line away unasked is the same whatever the trails have, and nothing of them is looked at. A
/// report is admitted for an authority alone (own).
pub fn admission()
    ensures unlooked { (old new : DeskView) (from : Peer) (ask : Ask) (turn : Turn) → Refuses old from ask turn new →
        new.clerk ≡ (with_seen new.clerk.seen old).clerk }
    ensures whatever { (old new : DeskView) (from : Peer) (ask : Ask) (turn : Turn) (sights : List (List Entry)) →
        Refuses old from ask turn new → Refuses (with_sights sights old) from ask turn (with_sights sights new) }
    ensures reports { (old new : DeskView) (from : Peer) (ask : Ask) (moment : ℕ) (actor : Actor) →
        Admits old from ask moment actor new → IsTrue (is_report ask.asked) → actor.role ≡ role.Authority }
{}
