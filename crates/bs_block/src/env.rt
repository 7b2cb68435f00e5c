// The cells of one chare.
ghost use Rattle.std.specs.Prelude.{◌≡◌, ◌<◌, IfOk, length, get_or, pos, slice_set};
ghost use Rattle.bs_block.specs.Env.{MadeFor, zeroed};

use bs_check::Accepted;
use std::alloc::{AllocError, Global};
use std::marker::Model;
use std::mem;

/// The number of a chare and what its cells hold.
#[derive(Debug, Drop)]
pub struct Env {
    this: u32,
    cells: Vec<i64>,
}

impl Model for Env {
    ghost use Rattle.bs_block.specs.Env.{ChareCells, chare_cells_code};

    ghost Value = { ChareCells };

    ghost coded = { chare_cells_code };

    ghost view = { λ env. record { this = env.this; cells = env.cells.items } };
}

impl Env {
    /// The cells of a chare of the program, each of which holds 0.
    pub fn new(alloc: Global, accepted: &Accepted, this: u32) -> Result<Env, AllocError>
        requires { this < accepted.now.program.chares }
        ensures value { IfOk result (λ env. env ≡ zeroed accepted.now.program this) }
        ensures made { IfOk result (λ env. MadeFor accepted.now.program env) }
    {
        let cells = vec![in alloc; 0; accepted.cells() as usize]?;
        Ok(Env { this, cells })
    }

    /// The chare's number. It takes no memory.
    pub fn this(&self) -> u32
        ensures { result ≡ self.now.this }
    {
        self.this
    }

    /// What a cell holds. Cells count from 0 over all variables. It takes no memory.
    pub fn get(&self, cell: u32) -> i64
        requires { cell < length self.now.cells }
        ensures { result ≡ get_or self.now.cells cell (pos 0) }
    {
        self.cells[cell as usize]
    }

    /// Makes a cell hold a value. Cells count from 0 over all variables. It takes no memory.
    pub fn set(&mut self, cell: u32, value: i64)
        requires { cell < length self.old.cells }
        ensures { self.new ≡ record self.old { cells = slice_set self.old.cells cell value } }
    {
        self.cells[cell as usize] = value;
    }

    /// An equal environment.
    pub fn copy(&self, alloc: Global) -> Result<Env, AllocError>
        ensures { IfOk result (λ env. env ≡ self.now) }
    {
        let cells = Vec::from_slice(alloc, self.cells.as_slice())?;
        Ok(Env {
            this: self.this,
            cells,
        })
    }

    // The environment itself, which leaves one of no cells behind. It takes no memory.
    pub(crate) fn taken_out(&mut self, alloc: Global) -> Env
        ensures { result ≡ self.old }
    {
        let cells = mem::replace(&mut self.cells, Vec::new(alloc));
        Env {
            this: self.this,
            cells,
        }
    }
}
