// How a mail is tied to the mail that a list of messages makes for a chare.
ghost use Rattle.std.specs.Prelude.{◌≡◌, ◌↔◌, ℕ, List, [], ◌∷◌, ◌++◌, None};
ghost use Rattle.bs_log.specs.declared.history.Message.{Message};
ghost use Rattle.bs_log.specs.Lists.{Apart};
ghost use Rattle.bs_log.specs.Messages.{one_key};
ghost use Rattle.bs_semantics.specs.Rounds.{mail_to};
ghost use Rattle.bs_match.specs.Mail.{lookup, with_message};
ghost use Rattle.bs_match.specs.Filled.{filled, NoneRefused, AreThoseTo};

/// **Mail.** An empty mail is that of no messages (`starts`). Where a mail is that of the messages so
/// far at its chare, it is so with the next one: after that message was put, if it goes to the chare
/// (`adds`), and as it is, if it goes to another (`skips`). Where no chare was sent one key twice so far,
/// none is with the next message exactly where the mail of its chare holds none of its key (`apart`).
///
/// Where the messages that go to a chare, and no others, were put into an empty mail in any order, and
/// none was refused, the mail is that of all the messages at the chare (`any_order`).
pub fn mail_of_sent()
    ensures starts { (c : ℕ) → lookup [] ≡ mail_to [] c }
    ensures adds { (ms held : List Message) (m : Message) → lookup held ≡ mail_to ms m.sent.to → lookup held m.sent.key ≡ None → with_message m (lookup held) ≡ mail_to (ms ++ m ∷ []) m.sent.to }
    ensures skips { (ms : List Message) (m : Message) (c : ℕ) → (m.sent.to ≡ c → ⊥) → mail_to (ms ++ m ∷ []) c ≡ mail_to ms c }
    ensures apart { (ms : List Message) (m : Message) → Apart one_key (ms ++ m ∷ []) ↔ (Apart one_key ms × (mail_to ms m.sent.to m.sent.key ≡ None)) }
    ensures any_order { (ms ps : List Message) (c : ℕ) → NoneRefused ps → AreThoseTo c ms ps → filled ps ≡ mail_to ms c }
{}
