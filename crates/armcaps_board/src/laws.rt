//! What holds of steps, whatever they are. These functions have nothing to do when they run: each one's contract is a
//! law.

ghost use Rattle.std.specs.Prelude.{◌≡◌, ◌&&◌, ◌∷◌, ◌++◌, [], List};
ghost use Rattle.armcaps_board.specs.declared.step_line.StepLine.{StepLine as Line};
ghost use Rattle.armcaps_board.specs.Board.{Board as Machine};
ghost use Rattle.armcaps_board.specs.Order.{in_order, is_next};
ghost use Rattle.armcaps_board.specs.Steps.{first_event, history};

/// Lines are in order with one more line exactly where they are without it, and the first of its steps may come next.
/// So `online` stands where its check can: the two other steps then follow in their turn.
pub fn lines_are_judged_by_their_first_step()
    ensures { (board : Machine) (lines : List Line) (line : Line)
        → in_order board (history (lines ++ line ∷ []))
        ≡ (is_next board (history lines) (first_event line) && in_order board (history lines)) }
{}
