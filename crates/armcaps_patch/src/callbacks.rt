//! Which callback an entry names, where each is looked up once.

ghost use Rattle.std.specs.Prelude.{◌≡◌, IfOk, length, true};
ghost use Rattle.armcaps_alt.specs.Names.{callback_named};
ghost use Rattle.armcaps_patch.specs.Choices.{AreAsked};

use armcaps_alt::{CallbackKind, Entry, Names};
use std::alloc::{AllocError, Global};

// A callback that was looked up: its offset, and its kind where it is named.
#[derive(Clone, Copy, Debug)]
pub(crate) struct Asked {
    pub(crate) offset: i64,
    pub(crate) kind: Option<CallbackKind>,
}

// Room for 1,024 callbacks, in all of which the one at the image's begin was looked up.
pub(crate) fn first_asked(alloc: Global, names: &Names) -> Result<Vec<Asked>, AllocError>
    ensures many { IfOk result (λ asked. length asked.items ≡ 1024) }
    ensures known { IfOk result (λ asked. AreAsked names.now asked.items) }
{
    let first = Asked {
        offset: 0,
        kind: names.callback(0),
    };
    let asked = Vec::from_elem(alloc, first, 1024)?;
    Ok(asked)
}

// The kind of an entry's callback: the one that was looked up for its offset, or that of `names`, which is known from
// then on. None where the entry has no callback or it isn't named.
pub(crate) fn kind_of(asked: &mut [Asked], entry: &Entry, names: &Names) -> Option<CallbackKind>
    requires many { length asked.old ≡ 1024 }
    requires known { AreAsked names.now asked.old }
    ensures kind { entry.now.callback ≡ true → result ≡ callback_named names.now entry.now.repl }
    ensures known { AreAsked names.now asked.new }
    ensures many { length asked.new ≡ 1024 }
{
    if !entry.callback {
        return None;
    }
    let place = (entry.repl.unsigned_abs() / 4 % 1024) as usize;
    let found = asked[place];
    if found.offset == entry.repl {
        return found.kind;
    }
    let kind = names.callback(entry.repl);
    asked[place] = Asked {
        offset: entry.repl,
        kind,
    };
    kind
}
