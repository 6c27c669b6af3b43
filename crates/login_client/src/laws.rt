//! Laws of a client's talk, for the crates that stand on this one. The functions do nothing: what they say is in
//! their contracts.

ghost use Rattle.lg_outside.specs.Faults.{Rose};
ghost use Rattle.lg_outside.specs.Traffic.{Traffic};
ghost use Rattle.login_client.specs.Acting.{Acts};
ghost use Rattle.login_client.specs.Conversation.{ClientTalk, conversation};
ghost use Rattle.login_client.specs.Exchange.{Ends, EndsAs, EndsAsDue, EndsWithin, IsDecided, IsExchange, Stand};
ghost use Rattle.login_client.specs.Heard.{heard_of};
ghost use Rattle.login_client.specs.Hearing.{IsHeard};
ghost use Rattle.login_client.specs.declared.ends.ClientAct.TheVariants.{Done};
ghost use Rattle.login_client.specs.Reasons.{FactorsGoByReasons, PasswordsGoByReasons, SwitchesGoByReasons};
ghost use Rattle.login_client.specs.Secrets.{KeepsTo};
ghost use Rattle.login_client.specs.Talk.{IsWaiting, Leads, Talk};
ghost use Rattle.login_client.specs.Talked.{AreGot, AreWritten, Talked, result_in, said_by};
ghost use Rattle.login_client.specs.Whole.{AreGiven, Asked, HasSecret, IsLogin, IsTurnedAway, IsWhole};
ghost use Rattle.login_client.specs.declared.ends.LoginEnd.TheVariants.{Opened, Refused};
ghost use Rattle.std.specs.Prelude.{◌≡◌, ◌↔◌, ◌⊎◌, ◌∷◌, [], ◌++◌, ℕ, suc, true, All, List, Option, Some};

use crate::claims::Claim;
use crate::ends::{ClientAct, LoginEnd};
use crate::hearing::Heard;
use packet_frame::Packet;

/// A payload says one thing.
pub fn payloads_have_one_meaning()
    ensures { (payload : List ℕ) (heard other : Heard) →
        IsHeard payload heard → IsHeard payload other → heard ≡ other }
{}

/// What a payload says is what its first byte and the message's reader tell.
pub fn payloads_say_what_is_read()
    ensures { (payload : List ℕ) (heard : Heard) → IsHeard payload heard ↔ (heard ≡ heard_of payload) }
{}

/// What a client has written, and its result, are determined by the payloads that it got.
pub fn talks_are_determined()
    ensures { (claim : Claim) (got written others : List (List ℕ)) (result other : Option LoginEnd) →
        ClientTalk claim got written result → ClientTalk claim got others other →
        (written ≡ others) × (result ≡ other) }
{}

/// What a client does at one packet more is what its talk comes to with that payload more.
pub fn clients_follow_their_talk()
    ensures { (start : Talk) (got written : List (List ℕ)) (now : Talk) (packet : Packet) (act : Option ClientAct) (next : Talk) →
        Leads start got written now → IsWaiting now → Acts now packet act next →
        Leads start (got ++ packet.payload ∷ []) (written ++ said_by act) next }
{}

/// Why a client doesn't say a secret in the clear is the first reason of one list that holds.
pub fn reasons_have_an_order()
    ensures factors { FactorsGoByReasons }
    ensures switches { SwitchesGoByReasons }
    ensures password { PasswordsGoByReasons }
{}

/// A client comes nearer to its end with each packet, and is done by what its talk decides: `Opened`, `Refused`,
/// `Malformed` or `WontSend`.
pub fn clients_end()
    ensures fewer { (n : ℕ) (talk : Talk) (packet : Packet) (act : Option ClientAct) (next : Talk) →
        IsWaiting talk → EndsWithin (suc n) talk → Acts talk packet act next → EndsWithin n next }
    ensures decided { (n : ℕ) (talk : Talk) (packet : Packet) (end : LoginEnd) (next : Talk) →
        IsWaiting talk → EndsWithin (suc n) talk → Acts talk packet (Some (Done end)) next → IsDecided end }
{}

/// An exchange over packets is the talk over the payloads in them.
pub fn exchanges_are_talks()
    ensures { (talk : Talk) (id place : ℕ) (got sent : List ℕ) (stand : Stand) →
        IsExchange talk id place got sent stand → Talked talk got sent stand }
{}

/// An exchange of a login is the client's talk over the payloads in it.
pub fn logins_are_client_talks()
    ensures { (claim : Claim) (id place : ℕ) (got sent : List ℕ) (stand : Stand) →
        IsExchange (conversation claim) id place got sent stand →
        (payloads written : List (List ℕ)) × ClientTalk claim payloads written (result_in stand)
        × AreGot payloads got stand × AreWritten written sent }
{}

/// A login hears at most six payloads, and ends by itself, with none of the ends that a link or want of memory
/// makes.
pub fn logins_end()
    ensures { (claim : Claim) → EndsWithin 6 (conversation claim) }
{}

/// A secret is said in the clear to a server on this machine alone: after 01 04, or where the method is permitted
/// after a switch to it or for a further factor.
pub fn secrets_are_kept()
    ensures { (claim : Claim) (heard : Heard) → KeepsTo claim heard (conversation claim) }
{}

/// A client is in exactly by the payloads of a whole login that ends with OK, where it gives all that they ask for.
pub fn opened_logins_are_whole()
    ensures { (claim : Claim) (got written : List (List ℕ)) →
        ClientTalk claim got written (Some Opened) ↔ IsWhole claim got written Opened }
{}

/// A client is refused exactly by an ERR in the greeting's place, or by the payloads of a whole login that ends with
/// ERR, where it gives all that they ask for; and by the number of that ERR.
pub fn refused_logins_are_whole()
    ensures { (claim : Claim) (got written : List (List ℕ)) (number : ℕ) →
        ClientTalk claim got written (Some (Refused number)) ↔
        (IsTurnedAway got written number ⊎ IsWhole claim got written (Refused number)) }
{}

/// Where the server is on this machine, the clear method is permitted and each secret that is asked for is there, a
/// client that gets the payloads of a whole login gives all that they ask for, and comes to its end.
pub fn whole_logins_open()
    ensures { (claim : Claim) (got : List (List ℕ)) (asked : List Asked) (end : LoginEnd) →
        claim.local ≡ true → claim.options.clear ≡ true → All (HasSecret claim) asked → IsLogin got asked end →
        (written : List (List ℕ)) × AreGiven claim asked written × ClientTalk claim got written (Some end) }
{}

/// What the server sends decides how a login over a link ends: where its bytes begin with an exchange that comes to an
/// end, the login comes to that end, unless the link failed or there was no memory.
pub fn logins_end_as_due()
    ensures { (claim : Claim) (id place faults rose : ℕ) (before : Traffic) (after : Option Traffic) (got behind sent : List ℕ) (due end : LoginEnd) →
        IsExchange (conversation claim) id place got sent (Ends due) → before.left ≡ got ++ behind →
        EndsAs (conversation claim) id place (Some before) after (Rose faults rose) end → EndsAsDue due (Rose faults rose) end }
{}
