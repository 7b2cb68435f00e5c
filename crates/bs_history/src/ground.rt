// What does not change while a chare runs, and what does.
ghost use Rattle.std.specs.Prelude.{◌≡◌, ◌≤◌, ◌+◌, All, IfOk, suc};
ghost use Rattle.std.specs.Option.{ForSome};
ghost use Rattle.bs_semantics.specs.Run.{no_causes};

use crate::causes::Causes;
use bs_block::Env;
use bs_check::Accepted;
use bs_log::{Key, Message};
use bs_match::Mail;
use std::alloc::{AllocError, Global};

// The program, the mail with maybe one message more, the number of the chare, the limit of sizes, the size of
// what was written before, and the size that is left.
#[derive(Drop)]
pub(crate) struct Ground<'p, 'm> {
    pub alloc: Global,
    pub accepted: &'p Accepted,
    pub mail: &'m Mail,
    pub more: Option<&'m Message>,
    pub this: u32,
    pub limit: u64,
    pub done: u64,
    pub room: u64,
    ghost small: { limit ≤ 262144 },
    ghost sizes: { done + room ≡ limit },
    ghost shallow: { All (λ m. m.origin.depth ≤ 262144) mail.now },
    ghost shallow_more: { ForSome more (λ m. m.now.origin.depth ≤ 262144) },
}

impl Ground<'_, '_> {
    ghost use Rattle.std.specs.Prelude.{◌≡◌, suc};
    ghost use Rattle.std.specs.Option.{option_copied};
    ghost use Rattle.bs_history.specs.Ground.{mail_of};

    // The most turns of one loop: one more than the limit.
    pub fn turns(&self) -> u32
        ensures { result ≡ suc self.now.limit }
    {
        self.limit as u32 + 1
    }

    // The message of a key, if there is one. That which came last stands before the others.
    pub fn find(&self, key: Key) -> Option<&Message>
        ensures { option_copied result ≡ mail_of self.now key }
    {
        match self.more {
            Some(message) if message.sent.key == key => Some(message),
            _ => self.mail.get(key),
        }
    }
}

// The variables of the chare, and what its next block rests on.
#[derive(Drop)]
pub(crate) struct State {
    pub env: Env,
    pub causes: Causes,
}

impl State {
    // An equal state.
    pub fn copy(&self, alloc: Global) -> Result<State, AllocError>
        ensures { IfOk result (λ state. state ≡ self.now) }
    {
        let env = self.env.copy(alloc)?;
        let causes = self.causes.copy(alloc)?;
        Ok(State { env, causes })
    }

    // The same variables without causes.
    pub fn bare(&self, alloc: Global) -> Result<State, AllocError>
        ensures { IfOk result (λ state. state ≡ record self.now { causes = no_causes }) }
    {
        let env = self.env.copy(alloc)?;
        Ok(State {
            env,
            causes: Causes::new(alloc),
        })
    }
}
