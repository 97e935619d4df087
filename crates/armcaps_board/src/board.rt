ghost use Rattle.std.specs.Prelude.{◌≡◌, ◌<◌, length};
ghost use Rattle.armcaps_board.specs.Board.{boot_core, core_at};

use armcaps_tables::{CoreRegs, Overrides};
use std::marker::Model;

/// What is brought up: the cores, the number of the boot core, and the values that stand in for fields. Contracts see
/// a record of the list of the cores and these two.
#[derive(Drop)]
pub struct Board {
    pub cores: Vec<CoreRegs>,
    pub boot: u32,
    pub overrides: Overrides,
}

impl Model for Board {
    ghost use Rattle.armcaps_board.specs.Board.{Board};

    ghost Value = { Board };

    ghost view = { λ board. record { cores = board.cores.items; boot = board.boot; overrides = board.overrides } };
}

impl Board {
    /// The core that runs first.
    pub fn boot_core(&self) -> &CoreRegs
        requires { self.now.boot < length self.now.cores }
        ensures { result.now ≡ boot_core self.now }
    {
        &self.cores[self.boot as usize]
    }

    /// A core, by its number.
    pub fn core(&self, number: u32) -> &CoreRegs
        requires { number < length self.now.cores }
        ensures { result.now ≡ core_at self.now.cores number }
    {
        &self.cores[number as usize]
    }
}
