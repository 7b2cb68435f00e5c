// The state of the machine, and its steps.
ghost use Rattle.std.specs.Prelude.{◌≡◌, ◌≤◌, ◌<◌, ◌^◌, List, [], ◌∷◌, ◌++◌, IfOk, IfErr, OnOk, Some, length, map, slice_get};
ghost use Rattle.bs_machine.specs.Fitted.{home_of};
ghost use Rattle.bs_machine.specs.declared.fitted.Fitted.{Fitted as Machine};
ghost use Rattle.bs_model.specs.Agenda.{IsAgenda};
ghost use Rattle.bs_semantics.specs.Serial.{Started};
ghost use Rattle.bs_model.specs.Book.{keyed};
ghost use Rattle.bs_model.specs.Next.{IsLeast};
ghost use Rattle.bs_log.specs.Collected.{traps_from, waits_from};
ghost use Rattle.bs_model.specs.Asking.{AskOnce};
ghost use Rattle.bs_model.specs.State.{Follows, begun_of};
ghost use Rattle.bs_model.specs.Stop.{Denies, HasCleanRound};

use crate::agenda::{Agenda, Next};
use crate::asking::ask_once;
use crate::book::{Begun, Book};
use crate::candidates::{best_block, choose};
use crate::mails::{deliver, list, renew, take};
use crate::stop::Stop;
use bs_check::Accepted;
use bs_log::{
    Block, History, Message, OutRow, Outcome, Sent, collect_traps, collect_waits, copy_messages,
    copy_numbers, size as size_of,
};
use bs_machine::Fitted;
use bs_match::Mail;
use bs_tree::List;
use std::alloc::{AllocError, Global};

/// What was started, and what that leads to: the last end of each processor and the best block of each
/// chare, and of each chare its mail, and its history under that mail. The size is that of all histories
/// together.
#[derive(Drop)]
pub(crate) struct State {
    book: Book,
    agenda: Agenda,
    mails: Vec<Mail>,
    histories: Vec<History>,
    size: u64,
}

impl State {
    ghost use Rattle.std.specs.Prelude.{◌≡◌, ◌≤◌, ◌<◌, ◌^◌, List, [], ◌∷◌, IfOk, IfErr, OnOk, Some, length, map, slice_get};
    ghost use Rattle.bs_machine.specs.Fitted.{home_of};
    ghost use Rattle.bs_machine.specs.declared.fitted.Fitted.{Fitted as Machine};
    ghost use Rattle.bs_model.specs.Agenda.{IsAgenda};
    ghost use Rattle.bs_semantics.specs.Serial.{Started};
    ghost use Rattle.bs_model.specs.Book.{keyed};
    ghost use Rattle.bs_model.specs.Next.{IsLeast};
    ghost use Rattle.bs_log.specs.Collected.{traps_from, waits_from};
    ghost use Rattle.bs_model.specs.Asking.{AskOnce};
    ghost use Rattle.bs_model.specs.State.{Follows, begun_of};
    ghost use Rattle.bs_model.specs.Stop.{Denies, HasCleanRound};

    /// Nothing is started yet.
    ///
    /// `Unclean` comes only where the verdict isn't Clean.
    pub(crate) fn begin(
        alloc: Global,
        accepted: &Accepted,
        machine: &Fitted,
        limit: u64,
    ) -> Result<State, Stop>
        requires chares { machine.now.chares ≡ accepted.now.program.chares }
        requires limit { (1 ≤ limit) × (limit ≤ 262144) }
        ensures begun { IfOk result (Follows accepted.now.program limit machine.now []) }
        ensures stopped { IfErr result (Denies (HasCleanRound accepted.now.program limit)) }
    {
        let chares = accepted.chares();
        let book = Book::new(alloc);
        let mut mails = Vec::new(alloc);
        let mut histories = Vec::new(alloc);
        let mut size = 0;
        let mut agenda = Agenda::new(alloc, machine, chares)?;
        for chare in 0..chares {
            let mail = Mail::new(alloc);
            let history = take(alloc, accepted, chare, &mail, limit)?;
            let best = best_block(alloc, machine, &book, chare, history.blocks.as_slice())?;
            size += size_of(&history);
            agenda.best_at(machine, chare, best)?;
            push(&mut histories, history)?;
            push(&mut mails, mail)?;
        }
        if size > limit {
            return Err(Stop::Unclean);
        }
        Ok(State {
            book,
            agenda,
            mails,
            histories,
            size,
        })
    }

    /// The block that starts next, if one can.
    pub(crate) fn next(&self) -> Option<Next>
        requires { (m : Machine) × IsAgenda m self.now.agenda }
        ensures { (m : Machine) → IsAgenda m self.now.agenda → IsLeast m self.now.agenda.ends.items self.now.agenda.bests.items result }
    {
        self.agenda.next()
    }

    /// Starts a block, and sends its messages. Before it no more blocks were started than the limit.
    ///
    /// `Unclean` comes only where the verdict isn't Clean.
    pub(crate) fn start(
        self,
        alloc: Global,
        accepted: &Accepted,
        machine: &Fitted,
        limit: u64,
        next: Next,
    ) -> Result<State, Stop>
        requires chares { machine.now.chares ≡ accepted.now.program.chares }
        requires limit { (1 ≤ limit) × (limit ≤ 262144) }
        requires follows { (bs : List Started) × Follows accepted.now.program limit machine.now bs self × (length bs ≤ limit) }
        requires least { IsLeast machine.now self.agenda.ends.items self.agenda.bests.items (Some next) }
        ensures follows { IfOk result (λ s. (bs : List Started) → Follows accepted.now.program limit machine.now bs self → length bs ≤ limit → (b : Started) × Follows accepted.now.program limit machine.now (b ∷ bs) s) }
        ensures stopped { IfErr result (Denies (HasCleanRound accepted.now.program limit)) }
    {
        let State {
            mut book,
            mut agenda,
            mut mails,
            mut histories,
            size,
        } = self;
        let block = block_at(&histories[next.chare as usize], next.best.at);
        let begun = begin(alloc, machine, block, &next)?;
        let messages = copy_mails(alloc, block.sends.as_slice())?;
        agenda.end_at(next.processor, begun.row.end)?;
        book.put(alloc, &block.path, begun)?;
        let mut changed = deliver(alloc, limit, &mut mails, messages)?;
        let size = renew(
            alloc,
            accepted,
            &mails,
            &changed,
            limit,
            &mut histories,
            size,
        )?;
        list(&mut changed, next.chare)?;
        choose(alloc, machine, &book, &histories, &changed, &mut agenda)?;
        Ok(State {
            book,
            agenda,
            mails,
            histories,
            size,
        })
    }

    /// The outcome, where no block can start.
    ///
    /// `Unclean` comes where a chare asks for a key twice.
    pub(crate) fn outcome(self, alloc: Global) -> Result<Outcome, Stop>
        requires { length self.histories.items ≤ 65536 }
        ensures rows { IfOk result (λ o. o.rows ≡ map (λ e. e.1.row) (keyed self.book)) }
        ensures traps { IfOk result (λ o. o.traps ≡ traps_from 0 self.histories.items) }
        ensures waits { IfOk result (λ o. o.waits ≡ waits_from 0 self.histories.items) }
        ensures once { OnOk result (AskOnce self.histories.items) }
        ensures stopped { IfErr result (Denies (AskOnce self.histories.items)) }
    {
        let State {
            book,
            histories,
            ..
        } = self;
        ask_once(alloc, &histories)?;
        Ok(Outcome {
            rows: book.rows(alloc)?,
            traps: collect_traps(alloc, &histories)?,
            waits: collect_waits(alloc, &histories)?,
        })
    }
}

// A block that starts at a tick.
fn begin(alloc: Global, machine: &Fitted, block: &Block, next: &Next) -> Result<Begun, AllocError>
    requires cost { (1 ≤ block.now.cost) × (block.now.cost ≤ 2 ^ 32) }
    requires early { next.now.start < 2 ^ 100 }
    requires home { next.now.processor ≡ home_of machine.now next.now.chare }
    ensures { IfOk result (λ begun. begun ≡ begun_of machine.now (record { chare = next.now.chare; block = block.now; start = next.now.start })) }
{
    let end = next.start + u128::from(machine.duration(block.cost));
    let values = copy_numbers(alloc, &block.emits)?;
    let sends = copy_sends(alloc, block.sends.as_slice())?;
    Ok(Begun {
        row: OutRow {
            chare: next.chare,
            stmt: block.stmt,
            processor: next.processor,
            start: next.start,
            end,
            values,
        },
        sends,
    })
}

// What a block sends, as its receivers get it.
fn copy_mails(alloc: Global, messages: &[Message]) -> Result<Vec<Message>, AllocError>
    ensures { IfOk result (λ copy. copy.items ≡ messages.now) }
{
    Ok(copy_messages(alloc, messages)?.into_vec())
}

// What a block sends, without the arguments.
fn copy_sends(alloc: Global, messages: &[Message]) -> Result<List<Sent>, AllocError>
    ensures { IfOk result (λ sends. sends ≡ map (λ m. m.sent) messages.now) }
{
    let mut sends = List::new(alloc);
    for message in messages {
        sends.push(message.sent)?;
    }
    Ok(sends)
}

fn push<T: Drop>(items: &mut Vec<T>, item: T) -> Result<(), AllocError>
    ensures { OnOk result (items.new.items ≡ items.old.items ++ item ∷ []) }
{
    items.push(item)?;
    Ok(())
}

// A block of a history, by its place.
fn block_at(history: &History, at: usize) -> &Block
    requires { at < length history.now.blocks }
    ensures { slice_get history.now.blocks at ≡ Some result.now }
{
    &history.blocks.as_slice()[at]
}
