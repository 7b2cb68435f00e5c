// The blocks that were started.
ghost use Rattle.std.specs.Prelude.{◌≡◌, [], ◌∷◌, map, IfOk, OnOk, OnErr};
ghost use Rattle.bs_model.specs.Book.{found, keyed, put_key};

use bs_log::{OutRow, Sent};
use bs_tree::{List, Path};
use std::alloc::{AllocError, Global};
use std::collections::BTreeMap;

/// A block that was started: its row of the outcome, and what it sends.
#[derive(Debug, Drop)]
pub(crate) struct Begun {
    pub row: OutRow,
    pub sends: List<Sent>,
}

/// The blocks that were started, in the order of (chare, path). Each is found by the two.
#[derive(Drop)]
pub(crate) struct Book {
    blocks: BTreeMap<Vec<u32>, Begun>,
}

impl Book {
    ghost use Rattle.std.specs.Prelude.{◌≡◌, [], ◌∷◌, map, IfOk, OnOk, OnErr};
    ghost use Rattle.std.specs.Option.{option_copied};
    ghost use Rattle.bs_model.specs.Book.{found, keyed, put_key};

    /// A book without blocks.
    pub(crate) fn new(alloc: Global) -> Book
        ensures { keyed result ≡ [] }
    {
        Book {
            blocks: BTreeMap::new(alloc),
        }
    }

    /// The started block of a chare at a path, or `None` exactly where there is none.
    pub(crate) fn find(
        &self,
        alloc: Global,
        chare: u32,
        path: &Path,
    ) -> Result<Option<&Begun>, AllocError>
        ensures { IfOk result (λ begun. option_copied begun ≡ found self.now chare path.now.0) }
    {
        let key = key(alloc, chare, path)?;
        Ok(self.blocks.get(&key))
    }

    /// Puts a block at a path of its chare, in place of one that is there.
    pub(crate) fn put(&mut self, alloc: Global, path: &Path, begun: Begun) -> Result<(), AllocError>
        ensures { OnOk result (keyed self.new ≡ put_key (begun.row.chare ∷ path.now.0) begun (keyed self.old)) }
    {
        let key = key(alloc, begun.row.chare, path)?;
        self.blocks.insert(key, begun)?;
        Ok(())
    }

    /// The rows of the blocks, in the order of (chare, path).
    pub(crate) fn rows(self, alloc: Global) -> Result<List<OutRow>, AllocError>
        ensures { IfOk result (λ rows. rows ≡ map (λ e. e.1.row) (keyed self)) }
    {
        let mut rows = List::new(alloc);
        for begun in self.blocks.into_values() {
            let Begun { row, .. } = begun;
            rows.push(row)?;
        }
        Ok(rows)
    }
}

// The chare, and then the places of the path: such lists have the order of (chare, path).
fn key(alloc: Global, chare: u32, path: &Path) -> Result<Vec<u32>, AllocError>
    ensures { IfOk result (λ key. key.items ≡ chare ∷ path.now.0) }
{
    let mut key = Vec::new(alloc);
    key.push(chare)?;
    key.extend_from_slice(path.0.as_slice())?;
    Ok(key)
}
