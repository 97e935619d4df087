ghost use Rattle.std.specs.Prelude.{◌≡◌, ◌==◌, ◌<◌, false, true, length, Some, None, Option, IfSome, Ok, Err, MatchResult, if◌then◌else◌};
ghost use Rattle.armcaps_boot.specs.Answers as answers;
ghost use Rattle.armcaps_boot.specs.Causes as causes;
ghost use Rattle.armcaps_boot.specs.Changes as changes;
ghost use Rattle.armcaps_boot.specs.Facts.{Facts};
ghost use Rattle.armcaps_boot.specs.First.{first_states, first_world};
ghost use Rattle.armcaps_boot.specs.Machine.{CanStep, IsStepped, world_of};
ghost use Rattle.armcaps_tables.specs.Overriding.{AllFit};
ghost use Rattle.armcaps_board.specs.Board.{core_at};
ghost use Rattle.armcaps_sanit.specs.System.{merged_words};
ghost use Rattle.armcaps_caps.specs.Rows.{capability_count};
ghost use Rattle.armcaps_caps.specs.Set.{holds};
ghost use Rattle.armcaps_boot.specs.Numbers.{numbers};
ghost use Rattle.armcaps_boot.specs.States.{is_admitted};
ghost use Rattle.armcaps_boot.specs.World.{state_at};

use crate::cause::Cause;
use crate::causes::{cause_at_check, cause_at_verification};
use crate::core_state::CoreState;
use crate::gathering::{decided, first_in_flight, with_own};
use crate::park_or_panic::Halt;
use crate::refused::StepRefused;
use crate::reply::Reply;
use crate::states::{admitted_after, is_admitted, past_of};
use armcaps_board::{Board, Event};
use armcaps_caps::CapSet;
use armcaps_enc::SysReg;
use armcaps_hwcap::{HwSet, of_system};
use armcaps_sanit::System;

// The number of the capability SVE.
const SVE: u16 = 36;

/// A machine that is brought up, as plain data.
#[derive(Drop)]
pub struct Machine {
    pub(crate) board: Board,
    pub(crate) system: System,
    pub(crate) states: Vec<CoreState>,
    pub(crate) halted: Option<Halt>,
    pub(crate) is_final: bool,
    /// The local capabilities that the early cores have.
    pub(crate) noted: CapSet,
    pub(crate) enabled: CapSet,
    pub(crate) hwcaps: HwSet,
    /// The word of CTR_EL0 at finalisation.
    pub(crate) final_ctr: u64,
    /// The vector lengths that all early cores have.
    pub(crate) common_lengths: u16,
    /// Those told to programs.
    pub(crate) lengths: u16,
}

impl Machine {
    /// A machine before its first step, whose cores have these states: only the boot core is admitted.
    pub(crate) fn first(board: Board, states: Vec<CoreState>) -> Machine
        requires within { board.boot < length board.cores }
        requires states { states.items ≡ first_states (length board.cores) board.boot }
        ensures first { world_of result ≡ first_world board }
        ensures fit { AllFit board.overrides }
    {
        let core = *board.boot_core();
        let ctr = core.get(SysReg::CtrEl0);
        let system = System::new(&core, &board.overrides);
        let noted = with_own(CapSet::empty(), false, &board, &core, ctr);
        let enabled = with_own(CapSet::empty(), true, &board, &core, ctr);
        Machine {
            board,
            system,
            states,
            halted: None,
            is_final: false,
            noted,
            enabled,
            hwcaps: HwSet {
                hwcap: 0,
                hwcap2: 0,
            },
            final_ctr: 0,
            common_lengths: core.vls(),
            lengths: 0,
        }
    }

    /// Makes one step. After a refusal and a skipped step nothing has changed.
    pub(crate) fn step(&mut self, event: Event) -> Result<Reply, StepRefused>
        requires { Facts (world_of self.old) }
        ensures answer { result ≡ answers.answer_of (world_of self.old) event }
        ensures after { world_of self.new ≡ changes.world_after (world_of self.old) event result }
    {
        if let Some(Halt { core, cause }) = self.halted {
            return Err(StepRefused::Halted { core, cause });
        }
        match event {
            Event::Check(core) => self.check(core),
            Event::Local(core) => self.local(core),
            Event::Store(core) => self.store(core),
            Event::Offline(core) => self.offline(core),
            Event::Finalise => self.finalise(),
        }
    }

    fn check(&mut self, core: u32) -> Result<Reply, StepRefused>
        requires { CanStep self.old }
        ensures { IsStepped self.old self.new (Event.Check core) result }
    {
        let state = self.state_of(core)?;
        match state {
            CoreState::Absent | CoreState::Offline { .. } => match self.cause_at_check(core) {
                None => {
                    self.states[core as usize] = CoreState::Checked(past_of(state));
                    Ok(Reply::Done)
                }
                Some(cause) => Ok(self.park_or_panic(core, cause)),
            },
            CoreState::Parked(_) => Ok(Reply::Skipped),
            _ => Err(StepRefused::OutOfTurn { state }),
        }
    }

    fn local(&mut self, core: u32) -> Result<Reply, StepRefused>
        requires { CanStep self.old }
        ensures { IsStepped self.old self.new (Event.Local core) result }
    {
        let state = self.state_of(core)?;
        match state {
            CoreState::Checked(past) => match self.cause_at_local(core) {
                None => {
                    self.noted = self.noted_with(core);
                    self.states[core as usize] = CoreState::Updated(past);
                    Ok(Reply::Done)
                }
                Some(cause) => Ok(self.park_or_panic(core, cause)),
            },
            CoreState::Parked(_) => Ok(Reply::Skipped),
            _ => Err(StepRefused::OutOfTurn { state }),
        }
    }

    fn store(&mut self, core: u32) -> Result<Reply, StepRefused>
        requires { CanStep self.old }
        ensures { IsStepped self.old self.new (Event.Store core) result }
    {
        let state = self.state_of(core)?;
        match state {
            CoreState::Updated(past) => {
                self.system = self.system_with(core);
                if !self.is_final {
                    self.common_lengths &= self.board.core(core).vls();
                }
                self.states[core as usize] = admitted_after(self.is_final, past);
                Ok(Reply::Done)
            }
            CoreState::Parked(_) => Ok(Reply::Skipped),
            _ => Err(StepRefused::OutOfTurn { state }),
        }
    }

    fn offline(&mut self, core: u32) -> Result<Reply, StepRefused>
        requires { CanStep self.old }
        ensures { IsStepped self.old self.new (Event.Offline core) result }
    {
        let state = self.state_of(core)?;
        match state {
            CoreState::Admitted { late } => {
                self.states[core as usize] = CoreState::Offline { late };
                Ok(Reply::Done)
            }
            CoreState::Parked(_) => Ok(Reply::Skipped),
            _ => Err(StepRefused::OutOfTurn { state }),
        }
    }

    fn finalise(&mut self) -> Result<Reply, StepRefused>
        requires { CanStep self.old }
        ensures { IsStepped self.old self.new Event.Finalise result }
    {
        if self.is_final {
            return Err(StepRefused::AlreadyFinal);
        }
        if let Some(core) = first_in_flight(&self.states) {
            return Err(StepRefused::InFlight { core });
        }
        self.enabled = decided(&self.enabled, &self.noted, &self.system);
        self.hwcaps = of_system(&self.system);
        self.final_ctr = self.system.word(SysReg::CtrEl0);
        self.lengths = if self.enabled.contains(SVE) {
            self.common_lengths
        } else {
            0
        };
        self.is_final = true;
        Ok(Reply::Done)
    }

    // The state of a core of which a step is asked.
    fn state_of(&self, core: u32) -> Result<CoreState, StepRefused>
        requires { Facts (world_of self.now) }
        ensures { MatchResult result
            (λ state. (core < length self.now.board.cores) × (state ≡ state_at self.now.states.items core)
            × ((answer : answers.Answer) → answers.numbered (world_of self.now) core answer ≡ answer))
            (λ refused. (answer : answers.Answer) → answers.numbered (world_of self.now) core answer ≡ Err refused) }
    {
        if core as usize >= self.board.cores.len() {
            return Err(StepRefused::NoCore);
        }
        if core == self.board.boot {
            return Err(StepRefused::IsBootCore);
        }
        Ok(self.states[core as usize])
    }

    // Whether a core was ever admitted. Such a core meets no cause when it comes back, and the system has all that it
    // brings: nothing is looked up again.
    fn was_admitted(&self, core: u32) -> bool
        requires { core < length self.now.states.items }
        ensures { result ≡ is_admitted (state_at self.now.states.items core) }
    {
        is_admitted(self.states[core as usize])
    }

    fn cause_at_check(&self, core: u32) -> Option<Cause>
        requires facts { Facts (world_of self.now) }
        requires within { core < length self.now.board.cores }
        ensures cause { result ≡ causes.cause_at_check self.now.board core }
        ensures numbered { IfSome result causes.IsNumbered }
    {
        if self.was_admitted(core) {
            return None;
        }
        let ctr = self.system.word(SysReg::CtrEl0);
        cause_at_check(&self.enabled, &self.board, self.board.core(core), ctr)
    }

    fn cause_at_local(&self, core: u32) -> Option<Cause>
        requires facts { Facts (world_of self.now) }
        requires within { core < length self.now.board.cores }
        ensures cause { result ≡ answers.cause_at_local (world_of self.now) core }
        ensures numbered { IfSome result causes.IsNumbered }
    {
        if !self.is_final || self.was_admitted(core) {
            return None;
        }
        let ctr = self.system.word(SysReg::CtrEl0);
        cause_at_verification(
            &self.enabled,
            &self.hwcaps,
            self.lengths,
            &self.board,
            self.board.core(core),
            ctr,
        )
    }

    // The capabilities noted once a core shows its own: after finalisation none is noted any more.
    fn noted_with(&self, core: u32) -> CapSet
        requires facts { Facts (world_of self.now) }
        requires within { core < length self.now.board.cores }
        ensures { numbers capability_count (holds result)
            ≡ (if self.now.is_final then (world_of self.now).noted else changes.noted_with (world_of self.now) core) }
    {
        if self.is_final || self.was_admitted(core) {
            return self.noted;
        }
        let ctr = self.system.word(SysReg::CtrEl0);
        with_own(self.noted, false, &self.board, self.board.core(core), ctr)
    }

    // The system registers once a core is admitted.
    fn system_with(&self, core: u32) -> System
        requires facts { Facts (world_of self.now) }
        requires within { core < length self.now.board.cores }
        ensures { result ≡ merged_words self.now.system (core_at self.now.board.cores core) }
    {
        if self.was_admitted(core) {
            return self.system;
        }
        let mut system = self.system;
        system.admit(self.board.core(core));
        system
    }
}
