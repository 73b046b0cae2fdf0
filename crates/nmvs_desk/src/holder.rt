ghost use Rattle.std.specs.Prelude.{◌≡◌};
ghost use Rattle.nmvs_rules.specs.Entries.{AreEntries};
ghost use Rattle.nmvs_rules.specs.Rules.{IsLawful};
ghost use Rattle.nmvs_desk.specs.Answers.{IsShown};
ghost use Rattle.nmvs_desk.specs.Placing.{IsPartOf};

use nmvs_history::{Histories, Token};

/// Has a clerk's token of a shard during a call. It may let the token see more of the shard's trail.
pub trait Holder<H: Histories> {
    type Output;

    ghost use Rattle.std.specs.Prelude.{ℕ, List, ⊤};
    ghost use Rattle.nmvs_rules.specs.declared.entry.Entry.{Entry};

    /// The number of the shard.
    ghost index: { Self → ℕ };

    /// The condition on what the token has seen; none by default.
    ghost may: { Self → List Entry → Type 0 } = { λ _ _. ⊤ };

    /// The promise about the output; none by default. The token had seen the first list before the call, and has seen the
    /// second after it.
    ghost tells: { Self → List Entry → List Entry → Self.Output → Type 0 } = { λ _ _ _ _. ⊤ };

    fn hold(self, token: &mut Token) -> Self::Output
        requires table { token.old.table ≡ H.tables (index self) }
        requires seen { IsLawful token.old.seen × AreEntries token.old.seen × IsPartOf H.shards (index self) token.old.seen }
        requires may { may self token.old.seen }
        ensures token { token.new ≡ record token.old { seen = token.new.seen } }
        ensures shown { IsShown H.shards (index self) token.old.seen token.new.seen }
        ensures tells { tells self token.old.seen token.new.seen result };
}
