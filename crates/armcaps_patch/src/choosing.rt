//! Which entries are selected, where each number is looked up once.

ghost use Rattle.std.specs.Prelude.{◌≡◌, ◌<◌, ◌^◌, ℕ, Bool, IfOk, length, replicate};
ghost use Rattle.armcaps_alt.specs.Entries.{selection};
ghost use Rattle.armcaps_caps.specs.Set.{holds};
ghost use Rattle.armcaps_patch.specs.Choices.{AreChoices};
ghost use Rattle.armcaps_patch.specs.declared.choice.Choice.TheVariants.{Unasked};

use crate::choice::Choice;
use armcaps_alt::{Entry, Names, selected};
use armcaps_caps::CapSet;
use std::alloc::{AllocError, Global};

// A choice for each number of a table, of none of which is known anything.
pub(crate) fn none_yet(alloc: Global) -> Result<Vec<Choice>, AllocError>
    ensures { IfOk result (λ choices. choices.items ≡ replicate (2 ^ 15) Unasked) }
{
    let choices = Vec::from_elem(alloc, Choice::Unasked, 0x8000)?;
    Ok(choices)
}

// Whether an entry is selected, by what is known of its number, or by `selected`, whose answer is known from then on.
pub(crate) fn choose(
    choices: &mut [Choice],
    entry: &Entry,
    names: &Names,
    enabled: &CapSet,
) -> Option<bool>
    requires number { entry.now.number < length choices.old }
    requires known { AreChoices names.now (holds enabled.now) choices.old }
    ensures same { (other : ℕ → Bool) → ((number : ℕ) → number < 53 → holds enabled.now number ≡ other number)
        → result ≡ selection names.now other entry.now }
    ensures known { AreChoices names.now (holds enabled.now) choices.new }
    ensures length { length choices.new ≡ length choices.old }
{
    match choices[entry.number as usize] {
        Choice::Known(found) => found,
        Choice::Unasked => {
            let found = selected(entry, names, enabled);
            choices[entry.number as usize] = Choice::Known(found);
            found
        }
    }
}
