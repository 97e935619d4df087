ghost use Rattle.std.specs.Prelude.{◌≡◌, ◌<◌, ◌≤◌, ◌&&◌, ℕ, true, false, length, slice_get, None, Ok, Err, IfOk, IfErr, OnErr, nat_lt};
ghost use Rattle.std.specs.Option.{option_copied};
ghost use Rattle.armcaps_enc.specs.declared.register.SysReg.TheVariants.{CtrEl0};
ghost use Rattle.armcaps_tables.specs.Core.{word_at};
ghost use Rattle.armcaps_sanit.specs.System.{IsSystemOf, system_words};
ghost use Rattle.armcaps_caps.specs.Capabilities.{is_workaround, is_system_scope};
ghost use Rattle.armcaps_caps.specs.Rows.{capability_count};
ghost use Rattle.armcaps_board.specs.Board.{IsCtrPlain};
ghost use Rattle.armcaps_boot.specs.Answers.{answer_of};
ghost use Rattle.armcaps_boot.specs.First.{first_states, first_world};
ghost use Rattle.armcaps_boot.specs.Numbers.{is_in};

use crate::core_state::CoreState;
use crate::machine::Machine;
use crate::park_or_panic::Halt;
use crate::refused::{BootRefused, StepRefused};
use crate::reply::Reply;
use armcaps_board::{Board, Event};
use armcaps_caps::CAPABILITIES;
use armcaps_enc::SysReg;
use armcaps_hwcap::HwSet;
use armcaps_sanit::System;
use armcaps_tables::{CoreRegs, Overrides};
use std::alloc::{AllocError, Global};
use std::marker::Model;

/// A machine whose cores are brought up step by step, in whatever order. It cannot be cloned.
///
/// Source: Linux, arch/arm64/kernel/cpufeature.c.
#[derive(Drop)]
pub struct Boot {
    machine: Machine,
}

impl Model for Boot {
    ghost use Rattle.armcaps_boot.specs.World.{World};

    ghost Value = { World };

    ghost use Rattle.armcaps_boot.specs.Facts.{Facts};
    ghost use Rattle.armcaps_boot.specs.Machine.{world_of};

    ghost view = { λ boot. world_of boot.machine };

    ghost invariant = { λ boot. Facts (world_of boot.machine) };
}

impl Boot {
    ghost use Rattle.armcaps_boot.specs.Causes.{has_length, is_system_length};
    ghost use Rattle.armcaps_boot.specs.Changes.{hwcaps_over, world_after};
    ghost use Rattle.armcaps_boot.specs.Facts.{Facts};
    ghost use Rattle.armcaps_boot.specs.Returning.{comes_back, KeepsSystem};
    ghost use Rattle.armcaps_boot.specs.Safety.{core_has, is_enabled, is_enabled_at_first, WasAdmitted};
    ghost use Rattle.armcaps_boot.specs.World.{admitted_cores, early_cores};

    /// A machine before its first step: the boot core is admitted, and no other core is there. All memory that the
    /// machine ever takes is taken here. `boot` is the boot core's number; no field of CTR_EL0 may be overridden.
    pub fn new(
        alloc: Global,
        cores: Vec<CoreRegs>,
        boot: u32,
        overrides: Overrides,
    ) -> Result<Boot, BootRefused>
        requires few { length cores.items ≤ 512 }
        requires plain_ctr { IsCtrPlain overrides }
        ensures first { IfOk result (λ made. made
            ≡ first_world (record { cores = cores.items; boot = boot; overrides = overrides })) }
        ensures facts { IfOk result (λ made. Facts made) }
        ensures no_boot_core { length cores.items ≤ boot → result ≡ Err BootRefused.NoBootCore }
        ensures boot_core { boot < length cores.items → IfErr result (λ refused. refused ≡ BootRefused.Memory) }
    {
        if boot as usize >= cores.len() {
            return Err(BootRefused::NoBootCore);
        }
        match states_at_first(alloc, cores.len(), boot) {
            Ok(states) => {
                let board = Board {
                    cores,
                    boot,
                    overrides,
                };
                Ok(Boot {
                    machine: Machine::first(board, states),
                })
            }
            Err(_) => Err(BootRefused::Memory),
        }
    }

    /// Makes one step. It takes no memory, and looks at a fixed number of rows of the tables. A core that was
    /// admitted, went and comes back is held back at none of its steps, and leaves the system as it is.
    ///
    /// # Examples
    ///
    /// Core 0 boots the machine, core 1 comes before finalisation, and core 2 after it, without SHA1, of which
    /// programs were told by then.
    ///
    /// ```
    /// let mut cores = [CoreRegs::zero(); 3];
    /// cores[0].set(SysReg::IdAa64Isar0El1, 0x11120);
    /// cores[1].set(SysReg::IdAa64Isar0El1, 0x11120);
    /// cores[2].set(SysReg::IdAa64Isar0El1, 0x11020);
    /// let cores = Vec::from_slice(rt.alloc(), &cores)?;
    /// let mut boot = Boot::new(rt.alloc(), cores, 0, Overrides::none())?;
    /// for event in [Event::Check(1), Event::Local(1), Event::Store(1), Event::Finalise, Event::Check(2)] {
    ///     assert_eq!(rt; boot.step(event), Ok(Reply::Done));
    /// }
    /// assert_eq!(rt; boot.state(1), Some(CoreState::Admitted { late: false }));
    /// assert_eq!(rt; boot.step(Event::Local(2)), Ok(Reply::Parked(Cause::Hwcap(4))));
    /// assert_eq!(rt; boot.step(Event::Store(2)), Ok(Reply::Skipped));
    /// assert_eq!(rt; boot.step(Event::Offline(0)), Err(StepRefused::IsBootCore));
    /// ```
    pub fn step(&mut self, event: Event) -> Result<Reply, StepRefused>
        ensures answer { result ≡ answer_of self.old event }
        ensures after { self.new ≡ world_after self.old event result }
        ensures refused { OnErr result (self.new ≡ self.old) }
        ensures skipped { result ≡ Ok Reply.Skipped → self.new ≡ self.old }
        ensures facts { Facts self.new }
        ensures back { self.old.halted ≡ None → comes_back self.old event ≡ true
            → (result ≡ Ok Reply.Done) × KeepsSystem self.old self.new }
    {
        self.machine.step(event)
    }

    /// What holds of a machine whatever steps it has made.
    pub fn facts_hold(&self)
        ensures { Facts self.now }
    {
        let _ = &self.machine;
    }

    /// The number of cores.
    pub fn count(&self) -> u32
        ensures { result ≡ length self.now.board.cores }
    {
        self.machine.board.cores.len() as u32
    }

    /// The number of the boot core.
    pub fn boot_core(&self) -> u32
        ensures { result ≡ self.now.board.boot }
    {
        self.machine.board.boot
    }

    /// A core, by its number.
    pub fn core(&self, core: u32) -> Option<&CoreRegs>
        ensures { option_copied result ≡ slice_get self.now.board.cores core }
    {
        self.machine.board.cores.get(core as usize)
    }

    /// The values that stand in for fields.
    pub fn overrides(&self) -> &Overrides
        ensures { result.now ≡ self.now.board.overrides }
    {
        &self.machine.board.overrides
    }

    /// The system registers: over the cores that were ever admitted.
    pub fn system(&self) -> &System
        ensures system { result.now ≡ self.now.system }
        ensures stands { IsSystemOf self.now.board.overrides (admitted_cores self.now.board self.now.states) result.now }
    {
        &self.machine.system
    }

    /// A core's state, by its number.
    pub fn state(&self, core: u32) -> Option<CoreState>
        ensures { result ≡ slice_get self.now.states core }
    {
        self.machine.states.get(core as usize).copied()
    }

    /// The core that stopped the machine, and why, if one did.
    pub fn halted(&self) -> Option<Halt>
        ensures { result ≡ self.now.halted }
    {
        self.machine.halted
    }

    /// Whether finalisation was done.
    pub fn is_final(&self) -> bool
        ensures { result ≡ self.now.final }
    {
        self.machine.is_final
    }

    /// Whether the capability of this number is enabled: before finalisation those of boot scope alone, and never one
    /// from the number of capabilities on. Each core that was ever admitted has each system feature that is enabled,
    /// and each workaround that such a core needs is enabled.
    pub fn enabled(&self, number: u16) -> bool
        ensures member { result ≡ is_in self.now.enabled number }
        ensures before { self.now.final ≡ false → result ≡ is_enabled_at_first self.now number }
        ensures after { self.now.final ≡ true → result ≡ is_enabled self.now number }
        ensures beyond { capability_count ≤ number → result ≡ false }
        ensures supported { self.now.final ≡ true → is_system_scope number ≡ true → result ≡ true
            → (core : ℕ) → WasAdmitted self.now core → core_has self.now core number ≡ true }
        ensures needed { self.now.final ≡ true → is_workaround number ≡ true
            → (core : ℕ) → WasAdmitted self.now core → core_has self.now core number ≡ true → result ≡ true }
    {
        number < CAPABILITIES && self.machine.enabled.contains(number)
    }

    /// The hwcaps: none before finalisation, and then those over the early cores.
    pub fn hwcaps(&self) -> HwSet
        ensures value { result ≡ self.now.hwcaps }
        ensures before { self.now.final ≡ false → result ≡ record { hwcap = 0; hwcap2 = 0 } }
        ensures after { self.now.final ≡ true
            → result ≡ hwcaps_over self.now.board (early_cores self.now.board self.now.states) }
    {
        self.machine.hwcaps
    }

    /// The word of CTR_EL0 that the system had at finalisation, over the early cores, and before that the present
    /// one.
    pub fn final_ctr(&self) -> u64
        ensures before { self.now.final ≡ false → result ≡ word_at self.now.system CtrEl0 }
        ensures value { self.now.final ≡ true → result ≡ self.now.final_ctr }
        ensures after { self.now.final ≡ true → result
            ≡ word_at (system_words self.now.board.overrides (early_cores self.now.board self.now.states)) CtrEl0 }
    {
        if self.machine.is_final {
            self.machine.final_ctr
        } else {
            self.machine.system.word(SysReg::CtrEl0)
        }
    }

    /// The vector lengths told to programs, bit 0 for 128 bits: none before finalisation, and then those that every
    /// early core has, where SVE is enabled.
    pub fn vector_lengths(&self) -> u16
        ensures value { result ≡ self.now.lengths }
        ensures before { self.now.final ≡ false → result ≡ 0 }
        ensures after { self.now.final ≡ true → (length : ℕ) → has_length result length
            ≡ is_system_length self.now.board (early_cores self.now.board self.now.states) length }
    {
        self.machine.lengths
    }
}

// The states of so many cores of which only the boot core is admitted.
fn states_at_first(alloc: Global, count: usize, boot: u32) -> Result<Vec<CoreState>, AllocError>
    requires { boot < count }
    ensures { IfOk result (λ states. states.items ≡ first_states count boot) }
{
    let mut states = Vec::from_elem(alloc, CoreState::Absent, count)?;
    states[boot as usize] = CoreState::Admitted { late: false };
    Ok(states)
}
