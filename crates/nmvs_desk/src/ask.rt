//! Clerks, their receipts, and the answers that they receive.
ghost use Rattle.std.specs.Prelude.{◌≡◌, ◌≢◌, ◌<◌, ◌⊎◌, ℕ, true, false, [], Some, None, IfOk, OnOk, OnErr, slice_get, vec_len, vec_capacity};
ghost use mathlib.Core.List.{IsPrefix};
ghost use Rattle.nmvs_directory.specs.Window.{Reads};
ghost use Rattle.nmvs_rules.specs.Entries.{AreEntries};
ghost use Rattle.nmvs_rules.specs.Questions.{code_of};
ghost use Rattle.nmvs_rules.specs.Rules.{IsLawful};
ghost use Rattle.nmvs_shard.specs.Asking.{WasPut};
ghost use Rattle.nmvs_desk.specs.declared.ask.Receipt.{Receipt};
ghost use Rattle.nmvs_desk.specs.Answers.{Answers, IsShown, receipts_then};
ghost use Rattle.nmvs_messages.specs.Withheld.{entries_left};
ghost use Rattle.nmvs_desk.specs.Clerks.{IsClerk};
ghost use Rattle.nmvs_desk.specs.Opening.{AreNew};
ghost use Rattle.nmvs_desk.specs.Placing.{shard_of, IsPartOf};
ghost use Rattle.nmvs_desk.specs.Settlement.{row, at, AreOwn, Rises};
ghost use Rattle.nmvs_desk.specs.Views.{places_of, sights_of};

use crate::shown::shown_by;
use crate::{Holder, Reader, Repository, Shown};
use nmvs_directory::{Look, Naming, Notice, Window};
use nmvs_history::{Histories, Token};
use nmvs_identifier::Name;
use nmvs_rules::{Entry, Printed, Put};
use nmvs_shard::{Outcome, Shard};
use std::alloc::{AllocError, Allocator, Global};
use std::marker::{Model, PhantomData};
use std::sync::Wait;

/// The receipt of an answer: the entry, its shard, and its place in the shard's trail. Both numbers count from 0.
#[derive(Clone, Copy)]
pub struct Receipt {
    pub shard: usize,
    pub place: usize,
    pub entry: Entry,
}

/// A clerk asks a repository, by a window on the directory and a token of each shard. It keeps a receipt for each answer until
/// it lets its receipts go, or keeps none.
///
/// Contracts see the changes that its window saw or learned, and what it has seen of each shard's trail. They see its own
/// places of each trail, those of all its answers. They see the receipts that it has in hand, oldest first, and whether it
/// keeps receipts.
#[derive(Drop)]
pub struct Clerk<'a, J: Naming, H: Histories, B: Allocator = Global> {
    window: Window<J, &'a B>,
    tokens: Vec<Token, &'a B>,
    receipts: Vec<Receipt, &'a B>,
    keeps: bool,
    of: PhantomData<H>,
}

impl<'a, J: Naming, H: Histories, B: Allocator> Model for Clerk<'a, J, H, B> {
    ghost use Rattle.nmvs_desk.specs.Clerks.{IsClerk};
    ghost use Rattle.nmvs_desk.specs.Views.{ClerkView, places_of, sights_of};

    ghost Value = { ClerkView };

    ghost view = { λ c. record {
      seen = c.window;
      sights = sights_of c.tokens.items;
      places = places_of c.tokens.items;
      receipts = c.receipts.items;
      keeps = c.keeps;
    } };

    ghost invariant = { λ c. IsClerk H.tables H.shards c.tokens.items c.receipts.items };
}

impl<'a, J: Naming, H: Histories, B: Allocator> Clerk<'a, J, H, B> {
    /// A clerk without a receipt, which keeps receipts. Its tokens have seen the trails of the opening.
    pub(crate) fn new(
        alloc: &'a B,
        window: Window<J, &'a B>,
        tokens: Vec<Token, &'a B>,
    ) -> Clerk<'a, J, H, B>
        requires { AreNew H.tables H.shards H.opening H.shards tokens.items }
        ensures seen { result.seen ≡ window.entry }
        ensures sights { result.sights ≡ sights_of tokens.entry.items }
        ensures places { result.places ≡ places_of tokens.entry.items }
        ensures receipts { result.receipts ≡ [] }
        ensures keeps { result.keeps ≡ true }
    {
        Clerk {
            window,
            tokens,
            receipts: Vec::new(alloc),
            keeps: true,
            of: PhantomData,
        }
    }

    /// The receipts in hand, oldest first. Each receipt's entry stands at its place in what the clerk has seen of its shard.
    /// That trail is lawful, and its entries are in their grammars and ranges. The place is the clerk's own, and the places
    /// rise in each shard.
    pub fn receipts(&self) -> &[Receipt]
        ensures receipts { result.now ≡ self.now.receipts }
        ensures stand { (n : ℕ) (r : Receipt) → slice_get result.now n ≡ Some r
            → at self.now.sights r.shard r.place ≡ Some r.entry }
        ensures own { (i : ℕ) → i < H.shards → AreOwn i result.now (row self.now.places i) }
        ensures rising { Rises result.now }
        ensures lawful { (i : ℕ) → IsLawful (row self.now.sights i) × AreEntries (row self.now.sights i) × IsPartOf H.shards i (row self.now.sights i) }
    {
        self.receipts.as_slice()
    }

    /// Lets the receipts in hand go. The clerk's sights stay, and so do its own places. The memory of the receipts is kept for
    /// later ones.
    pub fn let_go(&mut self)
        ensures { self.new ≡ record self.old { receipts = [] } }
    {
        self.receipts.clear();
    }

    /// Lets the receipts in hand go, and keeps none from now on. The clerk's places alone say what was answered, and no entry
    /// is copied to a receipt.
    pub fn keep_no_receipts(&mut self)
        ensures { self.new ≡ record self.old { receipts = []; keeps = false } }
    {
        self.let_go();
        self.keeps = false;
    }

    /// The memory in which the clerk keeps its receipts.
    pub fn allocator(&self) -> &'a B {
        *self.receipts.allocator()
    }

    /// From now on the clerk sees no older directory than the notice says. It waits for nobody.
    pub fn learn(&mut self, notice: &Notice<J>)
        ensures longer { (self.new.seen ≡ self.old.seen) ⊎ (self.new.seen ≡ notice.now) }
        ensures seen { IsPrefix self.old.seen self.new.seen }
        ensures told { IsPrefix notice.now self.new.seen }
        ensures same { self.new ≡ record self.old { seen = self.new.seen } }
    {
        self.window.learn(notice);
    }

    /// Looks the user up in the directory, as `Window::look`. It waits for nobody.
    pub fn look(&mut self, user: &Name) -> Look
        ensures reads { Reads self.old.seen self.new.seen user.now result }
        ensures same { self.new ≡ record self.old { seen = self.new.seen } }
    {
        self.window.look(user)
    }

    /// Asks a question in the shard of its product code, which is held meanwhile, as `Shard::ask`. Its tag may hold it
    /// back, and so may the values printed on its pack, if they are given. The receipt of a question that was put is
    /// kept, if the clerk keeps receipts. An audit's answer comes with a list of the entries that it shows. The call
    /// waits for the shard.
    ///
    /// The answer is given on a trail that begins with all that the clerk has seen of the shard. Then the clerk has seen the
    /// entry that answers, too. The place of an entry that was put is the clerk's own: no other answer has it. Of the clerks
    /// that ask a question with its tag, one puts it.
    ///
    /// Condition: `open` gave the clerk with this repository, which the names of their histories say.
    ///
    /// # Errors
    ///
    /// `AllocError` if a growth was refused.
    pub fn ask<R: Wait>(
        &mut self,
        rt: &R,
        repository: &Repository<'a, H, B>,
        put: &Put,
        printed: &Option<Printed>,
    ) -> Result<(Outcome, Option<Shown<H>>), AllocError>
        ensures answers { let count = repository.now.shards in
            IfOk result (λ r. Answers count (shard_of count (code_of put.now.question)) put.now printed.now self.old self.new r.0 (entries_left (λ s. s) r.1)) }
        ensures untagged { put.now.tag ≡ None → printed.now ≡ None → IfOk result (λ r. WasPut r.0) }
        ensures unchanged { OnErr result (self.new ≡ self.old) }
    {
        let shard = repository.shard_of(&put.question.code());
        self.ask_in(rt, repository, shard, put, printed)
    }

    /// Asks a question, as `ask`, of a caller that has reckoned the shard of its product code.
    ///
    /// # Errors
    ///
    /// `AllocError` if a growth was refused.
    pub fn ask_in<R: Wait>(
        &mut self,
        rt: &R,
        repository: &Repository<'a, H, B>,
        shard: usize,
        put: &Put,
        printed: &Option<Printed>,
    ) -> Result<(Outcome, Option<Shown<H>>), AllocError>
        requires shard { shard ≡ shard_of repository.now.shards (code_of put.now.question) }
        requires below { shard < repository.now.shards }
        requires named { repository.now.shards ≡ H.shards }
        ensures answers { let count = repository.now.shards in
            IfOk result (λ r. Answers count (shard_of count (code_of put.now.question)) put.now printed.now self.old self.new r.0 (entries_left (λ s. s) r.1)) }
        ensures untagged { put.now.tag ≡ None → printed.now ≡ None → IfOk result (λ r. WasPut r.0) }
        ensures unchanged { OnErr result (self.new ≡ self.old) }
    {
        make_room(&mut self.receipts, self.keeps)?;
        let slot = repository.slot(shard);
        let (outcome, sight) = slot.ask(rt, &mut self.tokens[shard], put, printed)?;
        keep(&mut self.receipts, self.keeps, shard, put, &outcome);
        let shown = shown_by(shard, &outcome, sight);
        Ok((outcome, shown))
    }

    /// The reader's output on the shard of this number, whose trail begins with all that the clerk has seen of it. Then the
    /// clerk has seen all. The call waits for the shard.
    pub fn look_at<R: Wait, F: Reader<Shard<&'a B>>>(
        &mut self,
        rt: &R,
        repository: &Repository<'a, H, B>,
        index: usize,
        reader: F,
    ) -> F::Output
        requires { index < H.shards }
        ensures shown { IsShown H.shards index (row self.old.sights index) (row self.new.sights index) }
        ensures tells { F.tells reader (row self.new.sights index) result }
        ensures others { (i : ℕ) → i ≢ index → row self.new.sights i ≡ row self.old.sights i }
        ensures same { self.new ≡ record self.old { sights = self.new.sights } }
    {
        repository
            .slot(index)
            .look(rt, &mut self.tokens[index], reader)
    }

    /// Calls the holder with the clerk's token of the shard of this number. Then the clerk has seen what the token has.
    pub fn with_token<F: Holder<H>>(&mut self, index: usize, holder: F) -> F::Output
        requires index { index < H.shards }
        requires holder { F.index holder ≡ index }
        requires may { F.may holder (row self.old.sights index) }
        ensures shown { IsShown H.shards index (row self.old.sights index) (row self.new.sights index) }
        ensures tells { F.tells holder (row self.old.sights index) (row self.new.sights index) result }
        ensures others { (i : ℕ) → i ≢ index → row self.new.sights i ≡ row self.old.sights i }
        ensures same { self.new ≡ record self.old { sights = self.new.sights } }
    {
        holder.hold(&mut self.tokens[index])
    }

    /// The tokens and the receipts. The window goes.
    pub(crate) fn into_parts(self) -> (Vec<Token, &'a B>, Vec<Receipt, &'a B>)
        ensures sights { sights_of result.0.items ≡ self.entry.sights }
        ensures places { places_of result.0.items ≡ self.entry.places }
        ensures receipts { result.1.items ≡ self.entry.receipts }
        ensures clerk { IsClerk H.tables H.shards result.0.items result.1.items }
    {
        let Clerk {
            window: _,
            tokens,
            receipts,
            keeps: _,
            of: _,
        } = self;
        (tokens, receipts)
    }
}

/// Makes room for a receipt, if receipts are kept.
fn make_room<A: Allocator>(receipts: &mut Vec<Receipt, A>, keeps: bool) -> Result<(), AllocError>
    ensures room { OnOk result (keeps ≡ true → vec_len receipts.new < vec_capacity receipts.new) }
    ensures same { receipts.new.items ≡ receipts.old.items }
{
    if keeps {
        receipts.reserve(1)?;
    }
    Ok(())
}

/// Keeps the receipt of a question that was put in the shard, if receipts are kept. There is room for it then.
fn keep<A: Allocator>(
    receipts: &mut Vec<Receipt, A>,
    keeps: bool,
    shard: usize,
    put: &Put,
    outcome: &Outcome,
)
    requires { keeps ≡ true → vec_len receipts.old < vec_capacity receipts.old }
    ensures { receipts.new.items ≡ receipts_then keeps receipts.old.items shard put.now outcome.now }
{
    if !keeps {
        receipts.clear();
        return;
    }
    keep_new(receipts, shard, put, outcome);
}

/// Keeps the receipt of a question that was put in the shard. There is room for it. It stands apart from the path of a clerk
/// that keeps none, whose frame stays small.
#[inline(never)]
fn keep_new<A: Allocator>(
    receipts: &mut Vec<Receipt, A>,
    shard: usize,
    put: &Put,
    outcome: &Outcome,
)
    requires { vec_len receipts.old < vec_capacity receipts.old }
    ensures { receipts.new.items ≡ receipts_then true receipts.old.items shard put.now outcome.now }
{
    match outcome {
        Outcome::New(answered) => receipts.push_reserved(Receipt {
            shard,
            place: answered.place,
            entry: Entry {
                put: *put,
                reply: answered.reply,
            },
        }),
        Outcome::Again(_) | Outcome::NotPut(..) => {}
    }
}
