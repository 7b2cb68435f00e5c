// What is kept between two rounds, and one round.
ghost use Rattle.std.specs.Prelude.{◌≡◌, ◌≤◌, [], IfOk, OnOk, replicate};
ghost use Rattle.bs_log.specs.Size.{size_all};
ghost use Rattle.bs_log.specs.Histories.{no_history};
ghost use Rattle.bs_rounds.specs.State.{Becomes, IsAtRound};

use crate::asking::ask_once;
use crate::posting::post_all;
use crate::stop::Stop;
use crate::taking::take;
use bs_check::Accepted;
use bs_log::History;
use bs_match::Mail;
use bs_tree::List;
use std::alloc::{AllocError, Global};

/// The chares of a program between two rounds.
#[derive(Drop)]
pub(crate) struct Chares {
    /// How many rounds were taken.
    pub(crate) rounds: u64,
    pub(crate) mails: Vec<Mail>,
    /// Whether the mail of a chare is new since its history was taken.
    pub(crate) fresh: Vec<bool>,
    pub(crate) histories: Vec<History>,
    /// The size of all histories together.
    pub(crate) size: u64,
}

impl Chares {
    /// The chares before the first round.
    pub(crate) fn start(
        alloc: Global,
        accepted: &Accepted,
        limit: u64,
    ) -> Result<Chares, AllocError>
        ensures { IfOk result (λ chares. (chares.rounds ≡ 0) × IsAtRound accepted.now.program limit 0 chares.mails.items chares.fresh.items chares.histories.items × (chares.size ≡ size_all chares.histories.items)) }
    {
        let count = accepted.chares() as usize;
        Ok(Chares {
            rounds: 0,
            mails: no_mails(alloc, count)?,
            fresh: vec![in alloc; true; count]?,
            histories: no_histories(alloc, count)?,
            size: 0,
        })
    }

    /// Takes a round. If nothing is refused, and some chare is fresh then, the next one can be taken.
    pub(crate) fn take_round(
        &mut self,
        alloc: Global,
        accepted: &Accepted,
        limit: u64,
    ) -> Result<(), Stop>
        requires limit { limit ≤ 262144 }
        requires state { IsAtRound accepted.now.program limit self.old.rounds self.old.mails.items self.old.fresh.items self.old.histories.items }
        requires size { self.old.size ≡ size_all self.old.histories.items }
        ensures becomes { Becomes accepted.now.program limit self.old.rounds result self.new.mails.items self.new.fresh.items self.new.histories.items }
        ensures size { OnOk result (self.new.size ≡ size_all self.new.histories.items) }
        ensures rounds { self.new.rounds ≡ self.old.rounds }
    {
        self.size = take(
            alloc,
            accepted,
            limit,
            self.mails.as_slice(),
            self.fresh.as_slice(),
            &mut self.histories,
            self.size,
        )?;
        if self.size > limit {
            return Err(Stop::Long);
        }
        ask_once(alloc, self.histories.as_slice(), self.fresh.as_slice())?;
        let mut news = vec![in alloc; false; self.mails.len()]?;
        post_all(
            alloc,
            self.histories.as_slice(),
            self.fresh.as_slice(),
            &mut self.mails,
            &mut news,
        )?;
        self.fresh = news;
        Ok(())
    }
}

// Mails without messages.
fn no_mails(alloc: Global, count: usize) -> Result<Vec<Mail>, AllocError>
    ensures { IfOk result (λ mails. mails.items ≡ replicate count []) }
{
    let mut mails = Vec::with_capacity(alloc, count)?;
    for _ in 0..count {
        mails.push(Mail::new(alloc))?;
    }
    Ok(mails)
}

// Histories of chares that do nothing.
fn no_histories(alloc: Global, count: usize) -> Result<Vec<History>, AllocError>
    ensures { IfOk result (λ histories. histories.items ≡ replicate count no_history) }
{
    let mut histories = Vec::with_capacity(alloc, count)?;
    for _ in 0..count {
        histories.push(History {
            blocks: List::new(alloc),
            asked: List::new(alloc),
            waits: List::new(alloc),
            traps: List::new(alloc),
            ended: false,
        })?;
    }
    Ok(histories)
}
