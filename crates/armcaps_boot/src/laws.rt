//! What steps come to, whatever they are. These functions have nothing to do when they run: each one's contract is a
//! law.

ghost use Rattle.std.specs.Prelude.{◌≡◌, ◌<◌, ◌==◌, ◌&&◌, ◌||◌, ◌∷◌, ◌++◌, [], ℕ, true, List, length, Ok, None};
ghost use Rattle.armcaps_board.specs.declared.event.Event.{Event as Step};
ghost use Rattle.armcaps_board.specs.Board.{Board, IsBoard};
ghost use Rattle.armcaps_board.specs.Order.{in_order, is_complete, is_next};
ghost use Rattle.armcaps_boot.specs.Admission.{admitted_cores_after, early_cores_after, has_come, is_among_admitted, is_among_early, is_among_late};
ghost use Rattle.armcaps_boot.specs.ParkOrPanic.{halt_of};
ghost use Rattle.armcaps_boot.specs.After.{IsAfter, reply_of, state_of, states_after};
ghost use Rattle.armcaps_boot.specs.Answers.{answer_of};
ghost use Rattle.armcaps_boot.specs.Changes.{world_after};
ghost use Rattle.armcaps_boot.specs.Facts.{Facts};
ghost use Rattle.armcaps_boot.specs.First.{first_world};
ghost use Rattle.armcaps_boot.specs.Outcome.{IsSafe};
ghost use Rattle.armcaps_boot.specs.States.{is_admitted, is_early, is_late};
ghost use Rattle.armcaps_boot.specs.World.{World, admitted_cores, early_cores};

/// A machine that was just made is that of its board before any step.
pub fn machines_begin_with_no_step()
    ensures { (board : Board) → board.boot < length board.cores
        → IsAfter board [] (first_world board) }
{}

/// A step in its order is never refused: it is answered as the steps say, and then the machine is that of all steps.
pub fn steps_are_answered()
    ensures answer { (board : Board) (steps : List Step) (event : Step) (world : World)
        → Facts world → IsAfter board steps world → in_order board steps ≡ true
        → is_next board steps event ≡ true → halt_of board steps ≡ None
        → answer_of world event ≡ Ok (reply_of board steps event) }
    ensures after { (board : Board) (steps : List Step) (event : Step) (world : World)
        → Facts world → IsAfter board steps world → in_order board steps ≡ true
        → is_next board steps event ≡ true → halt_of board steps ≡ None
        → IsAfter board (event ∷ steps) (world_after world event (Ok (reply_of board steps event))) }
{}

/// The early, late and admitted cores of steps in order are those whose states say so. A core is admitted after the
/// first of these steps exactly where it is the boot core, or it is admitted by all of them and its first store
/// stands among the first.
pub fn sets_are_those_of_the_steps()
    ensures is_early { (board : Board) (steps : List Step) (core : ℕ) → in_order board steps ≡ true
        → is_early (state_of board steps core) ≡ is_among_early board steps core }
    ensures is_late { (board : Board) (steps : List Step) (core : ℕ) → in_order board steps ≡ true
        → is_late (state_of board steps core) ≡ is_among_late board steps core }
    ensures is_admitted { (board : Board) (steps : List Step) (core : ℕ) → in_order board steps ≡ true
        → is_admitted (state_of board steps core) ≡ is_among_admitted board steps core }
    ensures early { (board : Board) (steps : List Step) → in_order board steps ≡ true
        → early_cores board (states_after board steps) ≡ early_cores_after board steps }
    ensures admitted { (board : Board) (steps : List Step) → in_order board steps ≡ true
        → admitted_cores board (states_after board steps) ≡ admitted_cores_after board steps }
    ensures shorter { (board : Board) (later steps : List Step) (core : ℕ)
        → in_order board (later ++ steps) ≡ true → core < length board.cores
        → is_admitted (state_of board steps core)
        ≡ ((core == board.boot) || (has_come core steps && is_among_admitted board (later ++ steps) core)) }
{}

/// Once all steps are made, none of which stopped the machine, each system feature that is enabled is had by each
/// core that was ever admitted, each workaround that such a core needs is enabled, each core that made a step is
/// admitted or parked, and each parked core is parked by its first cause.
pub fn documents_are_safe()
    ensures { (board : Board) (steps : List Step) → IsBoard board → in_order board steps ≡ true
        → is_complete steps ≡ true → halt_of board steps ≡ None → IsSafe board steps }
{}
