//! How the desk serves a call in its turn. Each adds its one entry, or tells that it is stale and adds none.

ghost use Rattle.account_history.specs.Histories.{◌▹◌};
ghost use Rattle.account_history.specs.Legal.{IsLegal};
ghost use Rattle.account_history.specs.Preparing.{who_of};
ghost use Rattle.account_history.specs.Sound.{IsWritten};
ghost use Rattle.account_history.specs.declared.entries.Entry.TheVariants.{Observed};
ghost use Rattle.account_history.specs.declared.entries.Who.TheVariants.{Login};
ghost use Rattle.sha256_crypt.specs.Alphabet.{IsSaltByte};
ghost use Rattle.shared_accounts.specs.Beginnings.{history_of};
ghost use Rattle.shared_accounts.specs.Calls.{Came, IsLooked, IsTimely, added_by, attempt_of, attempt_on, came-more, run_of, run_on};
ghost use Rattle.std.specs.List.{All};
ghost use Rattle.std.specs.Prelude.{◌≡◌, Some};

use crate::calls::{
    AttemptCall, CommitCall, LockedAttemptCall, LockedCommitCall, LookCall, Outcome, Ran,
};
use crate::desk::Desk;
use account_history::Reply;
use factor_chain::Look;
use lg_base::Memory;
use lg_outside::Keeper;
use turn_book::Applies;

impl<'a, K: Keeper + Drop> Applies<LookCall<'a>> for Desk<K> {
    type Reply = Look;

    ghost can = { λ _ _ _. Unit {0} };

    ghost makes = { λ _ _ call look. Some (Observed call.who.now look) };

    ghost answers = { λ begun entries before after look. (after ≡ before) × IsLooked (history_of begun entries) before.who.now look };

    ghost refused = { λ begun entries _ _. IsLegal (history_of begun entries) };

    fn apply(&mut self, call: &mut LookCall<'a>) -> Result<Look, Memory> {
        self.accounts.is_legal();
        let look = self.accounts.observe(call.alloc, call.who)?;
        self.accounts.observed(call.who, &look);
        Ok(look)
    }

    ghost stays = { λ _ _ _ _ _. tt {0} };
}

impl<'a, K: Keeper + Drop> Applies<AttemptCall<'a>> for Desk<K> {
    type Reply = Outcome<Reply>;

    ghost can = { λ begun entries call. Came begun entries (Login call.checked.now.look.user) call.checked.now.look };

    ghost makes = { λ _ _ call outcome. added_by (attempt_on call.checked.now call.flags call.reading) outcome };

    ghost answers = { λ begun entries before after outcome. (after ≡ before)
        × IsTimely (history_of begun entries) before.checked.now.look (attempt_on before.checked.now before.flags before.reading) outcome };

    ghost refused = { λ _ _ _ _. ⊥ };

    fn apply(&mut self, call: &mut AttemptCall<'a>) -> Result<Outcome<Reply>, Memory> {
        self.accounts.is_legal();
        let stamp = self.accounts.stamp(call.checked.look().user.as_slice());
        if stamp != call.checked.stamp() {
            return Ok(Outcome::Stale(stamp));
        }
        let reply = self
            .accounts
            .attempt(call.checked, call.flags, call.reading);
        Ok(Outcome::Done(reply))
    }

    ghost stays = { λ begun entries others call came. came-more begun entries others (Login call.checked.now.look.user) call.checked.now.look came };
}

impl<'a, K: Keeper + Drop> Applies<LockedAttemptCall<'a>> for Desk<K> {
    type Reply = Reply;

    ghost can = { λ _ _ _. Unit {0} };

    ghost makes = { λ _ _ call reply. Some (attempt_of call.user.now call.evidences.now call.flags call.reading reply) };

    ghost answers = { λ begun entries before after reply. (after ≡ before)
        × IsLegal (history_of begun entries ▹ attempt_of before.user.now before.evidences.now before.flags before.reading reply) };

    ghost refused = { λ _ _ _ _. ⊥ };

    fn apply(&mut self, call: &mut LockedAttemptCall<'a>) -> Result<Reply, Memory> {
        self.accounts.is_legal();
        let reply = self
            .accounts
            .attempt_here(call.user, call.evidences, call.flags, call.reading);
        Ok(reply)
    }

    ghost stays = { λ _ _ _ _ _. tt {0} };
}

impl<'a, K: Keeper + Drop> Applies<CommitCall<'a>> for Desk<K> {
    type Reply = Outcome<Ran>;

    ghost can = { λ begun entries call. Came begun entries (who_of call.actor call.prepared.now.statement) call.prepared.now.look
        × (call.actor ≡ call.prepared.now.actor) };

    ghost makes = { λ begun entries call outcome. added_by (run_on (history_of begun entries) call.prepared.now call.actor call.reading) outcome };

    ghost answers = { λ begun entries before after outcome. (after ≡ before)
        × IsTimely (history_of begun entries) before.prepared.now.look (run_on (history_of begun entries) before.prepared.now before.actor before.reading) outcome };

    ghost refused = { λ begun entries _ _. IsLegal (history_of begun entries) };

    fn apply(&mut self, call: &mut CommitCall<'a>) -> Result<Outcome<Ran>, Memory> {
        self.accounts.is_legal();
        let look = call.prepared.look();
        let stamp = self.accounts.stamp(look.user.as_slice());
        if stamp != look.stamp {
            return Ok(Outcome::Stale(stamp));
        }
        let reply = self.accounts.commit(
            call.alloc,
            call.prepared,
            call.actor,
            call.reading,
            &mut self.keeper,
        )?;
        self.accounts.is_legal();
        let count = self.keeper.faults();
        Ok(Outcome::Done(Ran { reply, count }))
    }

    ghost stays = { λ begun entries others call can. (came-more begun entries others (who_of call.actor call.prepared.now.statement) call.prepared.now.look can.0, can.1) };
}

impl<'a, K: Keeper + Drop> Applies<LockedCommitCall<'a>> for Desk<K> {
    type Reply = Ran;

    ghost can = { λ _ _ call. IsWritten call.statement.now × All IsSaltByte call.salt.now };

    ghost makes = { λ begun entries call ran. Some (run_of (history_of begun entries) call.statement.now call.salt.now call.actor call.reading ran) };

    ghost answers = { λ begun entries before after ran. (after ≡ before)
        × IsLegal (history_of begun entries ▹ run_of (history_of begun entries) before.statement.now before.salt.now before.actor before.reading ran) };

    ghost refused = { λ begun entries _ _. IsLegal (history_of begun entries) };

    fn apply(&mut self, call: &mut LockedCommitCall<'a>) -> Result<Ran, Memory> {
        self.accounts.is_legal();
        let reply = self.accounts.commit_here(
            call.alloc,
            call.statement,
            call.salt,
            call.actor,
            call.reading,
            &mut self.keeper,
        )?;
        self.accounts.is_legal();
        let count = self.keeper.faults();
        Ok(Ran { reply, count })
    }

    ghost stays = { λ _ _ _ _ can. can };
}
