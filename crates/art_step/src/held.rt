//! What stands for a cell that is held.
ghost use Rattle.std.specs.Prelude.{◌≡◌};
ghost use Rattle.art_step.specs.Tokens.{cell_held};

use art_cell::Cell;

/// A cell that is held. It has to be committed or released.
#[derive(Debug)]
pub struct Held {
    cell: Cell,
}

impl Held {
    /// For carriers: what stands for a cell that was just locked. What the pass may do with it, its view decides, so that
    /// one that is made for no locked cell serves nothing.
    pub fn of(cell: Cell) -> Held
        ensures { cell_held result ≡ cell }
    {
        Held { cell }
    }

    /// For carriers: the cell, which is about to be released.
    pub fn spend(self) -> Cell
        ensures { result ≡ cell_held self }
    {
        let Held { cell } = self;
        cell
    }

    pub fn cell(&self) -> Cell
        ensures { result ≡ cell_held self.now }
    {
        self.cell
    }
}
