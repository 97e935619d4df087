//! What `pool` writes of an input, in the words of its subject. The function has nothing to do when it runs: its
//! contract is the law.

ghost use Rattle.std.specs.Prelude.{◌≡◌, ℕ, List, Ok};
ghost use Rattle.armcaps_top.specs.Answer.{answer_of};
ghost use Rattle.armcaps_top.specs.Document.{Document, documents};
ghost use Rattle.armcaps_top.specs.PooledMachines.{TellsBaseline};
ghost use Rattle.armcaps_top.specs.declared.commands.Command.TheVariants as command;

/// Where `pool` writes something of an input, that has 1 to 64 machines, and it is the report of registers that each
/// machine accepts and that are the best of all that each machine accepts, and of the machine that limits each field.
pub fn pooled_machines_accept_the_baseline()
    ensures { (input : List ℕ) (found : List Document) (text : List ℕ) → documents input ≡ Ok found
        → (answer_of command.Pool input).output ≡ Ok text → TellsBaseline found text }
{}
