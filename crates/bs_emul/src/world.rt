// The chares of a program, and the messages that are left to serve.
ghost use Rattle.std.specs.Prelude.{◌≡◌, ◌≤◌, ℕ, List, [], ◌∷◌, ◌++◌, IfOk, IfErr, OnOk};
ghost use Rattle.bs_tree.specs.declared.tree.Program.{Program};
ghost use Rattle.bs_log.specs.declared.history.Message.{Message as Letter};
ghost use Rattle.bs_emul.specs.Stop.{IsStopped};
ghost use Rattle.bs_emul.specs.World.{IsWorld, Serves};

use crate::stop::Stop;
use bs_chare::Chare;
use bs_check::Accepted;
use bs_log::Message;
use bs_tree::List;
use std::alloc::{AllocError, Global};
use std::collections::VecDeque;

/// The chares of a program, all begun, and the messages that they sent and that aren't served yet, the
/// first one first.
#[derive(Drop)]
pub(crate) struct World<'p> {
    pub(crate) chares: Vec<Chare<'p>>,
    pub(crate) queue: VecDeque<Message>,
}

impl<'p> World<'p> {
    ghost use Rattle.std.specs.Prelude.{◌≡◌, ◌≤◌, ℕ, List, [], IfOk, IfErr};
    ghost use Rattle.bs_tree.specs.declared.tree.Program.{Program};
    ghost use Rattle.bs_log.specs.declared.history.Message.{Message as Letter};
    ghost use Rattle.bs_emul.specs.Stop.{IsStopped};
    ghost use Rattle.bs_emul.specs.World.{IsWorld, Serves};

    /// Begins all chares. What they send is left to serve.
    pub(crate) fn begin(
        alloc: Global,
        accepted: &'p Accepted,
        limit: u64,
    ) -> Result<World<'p>, Stop>
        requires { (1 ≤ limit) × (limit ≤ 262144) }
        ensures begun { IfOk result (IsWorld accepted.now.program limit []) }
        ensures stopped { IfErr result (IsStopped accepted.now.program limit) }
    {
        let mut chares = Vec::new(alloc);
        let mut queue = VecDeque::new(alloc);
        for number in 0..accepted.chares() {
            let mut chare = Chare::new(alloc, accepted, number, limit);
            let sent = chare.begin(alloc)?;
            append(&mut queue, sent)?;
            push(&mut chares, chare)?;
        }
        Ok(World { chares, queue })
    }

    /// Serves the first message that is left, and tells whether there was one.
    pub(crate) fn serve(&mut self, alloc: Global, limit: u64) -> Result<bool, Stop>
        requires limit { (1 ≤ limit) × (limit ≤ 262144) }
        requires world { (p : Program) × (ms : List Letter) × IsWorld p limit ms self.old }
        ensures { (p : Program) (ms : List Letter) → IsWorld p limit ms self.old → Serves p limit ms result self.new }
    {
        let Some(message) = self.queue.pop_front() else {
            return Ok(false);
        };
        if u64::from(message.origin.depth) > limit {
            return Err(Stop::Unclean);
        }
        let target = message.sent.to as usize;
        let news = self.chares[target].accept(alloc, message)?;
        append(&mut self.queue, news)?;
        Ok(true)
    }
}

// Messages come behind those that are left.
fn append(queue: &mut VecDeque<Message>, messages: List<Message>) -> Result<(), AllocError>
    ensures { OnOk result (queue.new.items ≡ queue.old.items ++ messages) }
{
    queue.append(&mut VecDeque::from_vec(messages.into_vec()))
}

fn push<'p>(chares: &mut Vec<Chare<'p>>, chare: Chare<'p>) -> Result<(), AllocError>
    ensures { OnOk result (chares.new.items ≡ chares.old.items ++ chare.entry ∷ []) }
{
    chares.push(chare)?;
    Ok(())
}
