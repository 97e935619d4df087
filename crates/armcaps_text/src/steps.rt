// The steps of cores, in the order of their lines.
ghost use Rattle.std.specs.Prelude.{◌≡◌, ℕ, ◌≤◌, ◌<◌, [], ◌∷◌, ◌++◌, Some, None, OnOk, slice_set, sum_by, slice_index_or, vec_len};
ghost use Rattle.armcaps_board.specs.Order.{is_complete, is_in_turn, is_some_in_flight, is_wrong_finalise};
ghost use Rattle.armcaps_board.specs.Steps.{history, is_final, last_step};
ghost use Rattle.armcaps_text.specs.Kept.{one_begun};

use armcaps_board::{Event, StepLine, is_begun};
use std::alloc::{AllocError, Global};
use std::marker::Model;

/// Lines of steps, with the last step of each core at hand.
#[derive(Drop)]
pub struct Steps {
    lines: Vec<StepLine>,
    last: Vec<Option<Event>>,
    begun: usize,
    is_final: bool,
}

impl Model for Steps {
    ghost use Rattle.std.specs.Prelude.{List};
    ghost use Rattle.armcaps_board.specs.declared.step_line.StepLine.{StepLine};
    ghost use Rattle.armcaps_board.specs.Steps.{history};
    ghost use Rattle.armcaps_text.specs.Kept.{AreKept};

    ghost Value = { List StepLine };

    ghost view = { λ steps. steps.lines.items };

    ghost invariant = { λ steps. AreKept (history steps.lines.items) steps.last.items steps.begun steps.is_final };
}

// Makes room for this many last steps.
#[tactic(auto, using(crate::proofs::StepsInTurn::begun_room, crate::proofs::StepsInTurn::each_room))]
fn grow(last: &mut Vec<Option<Event>>, len: usize) -> Result<(), AllocError>
    ensures each { (core : ℕ) → slice_index_or last.new.items core None ≡ slice_index_or last.old.items core None }
    ensures count { sum_by one_begun last.new.items ≡ sum_by one_begun last.old.items }
    ensures room { OnOk result (len ≤ vec_len last.new) }
{
    while last.len() < len {
        last.push(None)?;
    }
    Ok(())
}

fn one_begun(last: Option<Event>) -> usize
    ensures { result ≡ one_begun last }
{
    if is_begun(last) { 1 } else { 0 }
}

// Puts in the last step of a core, and counts the cores on their way up anew.
#[tactic(auto, using(crate::proofs::StepsInTurn::begun_few, crate::proofs::StepsInTurn::count_set))]
fn put(last: &mut Vec<Option<Event>>, place: usize, event: Event, begun: usize) -> usize
    requires within { place < vec_len last.old }
    requires count { begun ≡ sum_by one_begun last.old.items }
    ensures put { last.new.items ≡ slice_set last.old.items place (Some event) }
    ensures count { result ≡ sum_by one_begun last.new.items }
{
    let others = begun - one_begun(last[place]);
    last[place] = Some(event);
    others + one_begun(Some(event))
}

impl Steps {
    /// No steps.
    #[tactic(auto, using(crate::proofs::StepsInTurn::kept_at_start))]
    pub fn new(alloc: Global) -> Self
        ensures { result ≡ [] }
    {
        Steps {
            lines: Vec::new(alloc),
            last: Vec::new(alloc),
            begun: 0,
            is_final: false,
        }
    }

    // The last step of a core.
    fn last(&self, core: u32) -> Option<Event>
        ensures { result ≡ last_step core (history self.now) }
    {
        match self.last.get(core as usize) {
            Some(last) => *last,
            None => None,
        }
    }

    // Whether some core is on its way up.
    fn is_some_in_flight(&self) -> bool
        ensures { result ≡ is_some_in_flight (history self.now) }
    {
        self.begun > 0
    }

    // Whether the system is finalised.
    fn is_final(&self) -> bool
        ensures { result ≡ is_final (history self.now) }
    {
        self.is_final
    }

    /// Whether the core of a step can make it now.
    pub fn is_in_turn(&self, event: Event) -> bool
        ensures { result ≡ is_in_turn (history self.now) event }
    {
        match event.core() {
            Some(core) => event.can_follow(self.last(core)),
            None => true,
        }
    }

    /// Whether a step is a second finalisation, or one while some core is on its way up.
    pub fn is_wrong_finalise(&self, event: Event) -> bool
        ensures { result ≡ is_wrong_finalise (history self.now) event }
    {
        match event {
            Event::Finalise => self.is_final() || self.is_some_in_flight(),
            _ => false,
        }
    }

    /// Whether the system is finalised and no core is on its way up.
    pub fn is_complete(&self) -> bool
        ensures { result ≡ is_complete (history self.now) }
    {
        self.is_final() && !self.is_some_in_flight()
    }

    /// Adds a line of steps.
    pub fn push(&mut self, line: StepLine) -> Result<(), AllocError>
        ensures { OnOk result (self.new ≡ self.old ++ line ∷ []) }
    {
        let event = line.last_event();
        match event.core() {
            Some(core) => {
                let place = core as usize;
                grow(&mut self.last, place + 1)?;
                self.lines.push(line)?;
                self.begun = put(&mut self.last, place, event, self.begun);
            }
            None => {
                self.lines.push(line)?;
                self.is_final = true;
            }
        }
        Ok(())
    }

    /// The lines as they are.
    pub fn into_vec(self) -> Vec<StepLine>
        ensures { result.items ≡ self }
    {
        let Steps {
            lines,
            last: _,
            begun: _,
            is_final: _,
        } = self;
        lines
    }
}
