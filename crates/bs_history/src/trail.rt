// What is written of a history.
ghost use Rattle.std.specs.Prelude.{◌≡◌, ◌≤◌, ◌<◌, ◌+◌, ◌∷◌, [], true, false, IfErr, IfOk, OnErr, OnOk};
ghost use Rattle.bs_log.specs.Size.{block_size};
ghost use Rattle.bs_semantics.specs.Run.{trapped};
ghost use Rattle.bs_history.specs.Trail.{Added, IsWithin, Writes, an_asked, a_block, lists_run};

use crate::fault::HistoryFault;
use bs_log::{Asked, Block, Key, TrapAt, TrapKind, WaitAt};
use bs_tree::{List, Path};
use std::alloc::{AllocError, Global};
use std::mem;

/// Blocks, keys asked, traps and waits in the order of their paths, and the size of them.
#[derive(Drop)]
pub struct Lists {
    pub blocks: List<Block>,
    pub asked: List<Asked>,
    pub traps: List<TrapAt>,
    pub waits: List<WaitAt>,
    pub size: u64,
}

impl Lists {
    // Nothing is written. It takes no memory.
    pub(crate) fn new(alloc: Global) -> Lists
        ensures { result ≡ record { blocks = []; asked = []; traps = []; waits = []; size = 0 } }
    {
        Lists {
            blocks: List::new(alloc),
            asked: List::new(alloc),
            traps: List::new(alloc),
            waits: List::new(alloc),
            size: 0,
        }
    }
}

// The path of the statement that runs, what its chare wrote so far, and the size of that. Where the run that
// wrote it hasn't ended, what is left of it shows some more.
#[derive(Drop)]
pub(crate) struct Trail {
    pub path: Vec<u32>,
    pub blocks: List<Block>,
    pub asked: List<Asked>,
    pub traps: List<TrapAt>,
    pub waits: List<WaitAt>,
    pub size: u64,
    pub shown: Lists,
}

impl Trail {
    // Nothing is written, at this path. It takes no memory.
    pub fn new(alloc: Global, path: Vec<u32>) -> Trail
        ensures path { result.path.items ≡ path.items }
        ensures blocks { result.blocks ≡ [] }
        ensures asked { result.asked ≡ [] }
        ensures traps { result.traps ≡ [] }
        ensures waits { result.waits ≡ [] }
        ensures size { result.size ≡ 0 }
    {
        Trail {
            path,
            blocks: List::new(alloc),
            asked: List::new(alloc),
            traps: List::new(alloc),
            waits: List::new(alloc),
            size: 0,
            shown: Lists::new(alloc),
        }
    }

    // The path of the statement that runs.
    pub fn here(&self, alloc: Global) -> Result<Path, AllocError>
        ensures { IfOk result (λ path. path.0 ≡ self.now.path.items) }
    {
        Ok(Path(List::from_vec(Vec::from_slice(alloc, self.path.as_slice())?)))
    }

    // Counts what is to be written. Where it is too much for the limit, nothing is counted.
    fn grow(&mut self, more: u64, limit: u64) -> Result<(), HistoryFault>
        requires { self.old.size ≤ limit }
        ensures ok { OnOk result (self.new ≡ record self.old { size = self.old.size + more }) }
        ensures within { OnOk result (self.old.size + more ≤ limit) }
        ensures err { IfErr result (λ fault. (fault ≡ Long) × (limit < self.old.size + more)) }
    {
        if more > limit - self.size {
            return Err(HistoryFault::Long);
        }
        self.size += more;
        Ok(())
    }

    // A trap at a statement with this number.
    pub fn trap(
        &mut self,
        alloc: Global,
        number: u32,
        kind: TrapKind,
        limit: u64,
    ) -> Result<(), HistoryFault>
        requires { IsWithin limit self.old }
        ensures { Writes limit (trapped number self.old.path.items kind) self.old self.new result }
    {
        self.grow(1, limit)?;
        let path = self.here(alloc)?;
        self.traps.push(TrapAt {
            path,
            stmt: number,
            kind,
        })?;
        Ok(())
    }

    // A key that a statement with this number asks.
    pub fn ask(
        &mut self,
        alloc: Global,
        number: u32,
        key: Key,
        limit: u64,
    ) -> Result<(), HistoryFault>
        requires { IsWithin limit self.old }
        ensures { Writes limit (an_asked number self.old.path.items key) self.old self.new result }
    {
        self.grow(1, limit)?;
        let path = self.here(alloc)?;
        self.asked.push(Asked {
            key,
            path,
            stmt: number,
        })?;
        Ok(())
    }

    // A block of this size.
    pub fn block(&mut self, block: Block, limit: u64) -> Result<(), HistoryFault>
        requires { IsWithin limit self.old }
        ensures { Writes limit (a_block block) self.old self.new result }
    {
        self.grow(size_of(&block), limit)?;
        self.blocks.push(block)?;
        Ok(())
    }

    // A copy of the path of the statement that runs.
    pub fn places(&self, alloc: Global) -> Result<Vec<u32>, AllocError>
        ensures { IfOk result (λ path. path.items ≡ self.now.path.items) }
    {
        Ok(Vec::from_slice(alloc, self.path.as_slice())?)
    }

    // What is written, without the path.
    pub fn into_lists(self) -> Lists
        ensures { result ≡ record { blocks = self.blocks; asked = self.asked; traps = self.traps; waits = self.waits; size = self.size } }
    {
        let Trail {
            blocks,
            asked,
            traps,
            waits,
            size,
            ..
        } = self;
        Lists {
            blocks,
            asked,
            traps,
            waits,
            size,
        }
    }

    // Puts lists behind what is written.
    pub fn add(&mut self, lists: Lists) -> Result<(), AllocError>
        requires { self.old.size + lists.size ≤ 262144 }
        ensures { OnOk result (Added (lists_run lists) lists.size self.old self.new) }
    {
        let Lists {
            blocks,
            asked,
            traps,
            waits,
            size,
        } = lists;
        append(&mut self.blocks, blocks)?;
        append(&mut self.asked, asked)?;
        append(&mut self.traps, traps)?;
        append(&mut self.waits, waits)?;
        self.size += size;
        Ok(())
    }

    // Takes out what is shown, which is nothing where the run ended.
    pub fn take_shown(&mut self, alloc: Global, ended: bool) -> Lists
        ensures none { ended ≡ true → result ≡ record { blocks = []; asked = []; traps = []; waits = []; size = 0 } }
        ensures shown { ended ≡ false → result ≡ self.old.shown }
        ensures left { self.new ≡ record self.old { shown = self.new.shown } }
    {
        if ended {
            return Lists::new(alloc);
        }
        mem::replace(&mut self.shown, Lists::new(alloc))
    }

    // Puts what is shown behind what is written.
    pub fn settle(&mut self, alloc: Global) -> Result<(), AllocError>
        requires { self.old.size + self.old.shown.size ≤ 262144 }
        ensures { OnOk result (Added (lists_run self.old.shown) self.old.shown.size self.old self.new) }
    {
        let shown = mem::replace(&mut self.shown, Lists::new(alloc));
        self.add(shown)
    }
}

// Puts items behind others.
fn append<T: Drop>(items: &mut List<T>, more: List<T>) -> Result<(), AllocError>
    ensures { OnOk result (items.new ≡ items.old ++ more) }
{
    for item in more.into_vec() {
        items.push(item)?;
    }
    Ok(())
}

ghost use Rattle.std.specs.Prelude.{min, ◌-◌, ◌^◌};
ghost use Rattle.bs_history.specs.declared.fault.HistoryFault.TheVariants.{Long};

// The size of a block, or 2^64 - 1 where it is greater.
fn size_of(block: &Block) -> u64
    ensures { result ≡ min (block_size block.now) (2 ^ 64 - 1) }
{
    let causes = (block.after.as_slice().len() as u64).saturating_add(
        block.mail.as_slice().len() as u64,
    );
    let made = (block.sends.as_slice().len() as u64).saturating_add(
        block.emits.as_slice().len() as u64,
    );
    causes.saturating_add(made).saturating_add(1)
}

ghost use Rattle.std.specs.Prelude.{ℕ, List, ◌++◌};

// Adds a place to a path.
pub(crate) fn push_place(path: &mut Vec<u32>, place: u32) -> Result<(), AllocError>
    ensures { OnOk result (path.new.items ≡ path.old.items ++ place ∷ []) }
{
    path.push(place)?;
    Ok(())
}

// Takes the last place from a path.
pub(crate) fn pop_place(path: &mut Vec<u32>)
    ensures { (places : List ℕ) (place : ℕ) → path.old.items ≡ places ++ place ∷ [] → path.new.items ≡ places }
{
    path.pop();
}
