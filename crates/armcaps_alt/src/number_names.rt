ghost use Rattle.std.specs.Prelude.{◌≡◌, IfSome, map};
ghost use Rattle.std.specs.List.{All};
ghost use Rattle.std.specs.List.Sorted.{IsStrictlyIncreasing};
ghost use Rattle.armcaps_alt.specs.Names.{IsKnown, callback_named, number_named, value_at};

use crate::callback_kind::CallbackKind;
use crate::named_number::Named;
use crate::smccc_conduit::Conduit;
use std::marker::Model;

/// What the numbers and callbacks of a table of alternatives mean on a machine.
#[derive(Debug, Drop)]
pub struct Names {
    numbers: Vec<(u16, Named)>,
    callbacks: Vec<(u32, CallbackKind)>,
    conduit: Conduit,
}

impl Model for Names {
    ghost use Rattle.armcaps_alt.specs.Names.{AreNames, NameLists};

    ghost Value = { NameLists };

    ghost view = { λ a. record { numbers = a.numbers.items; callbacks = a.callbacks.items; conduit = a.conduit } };

    ghost invariant = { λ a. AreNames a.numbers.items a.callbacks.items };
}

impl Names {
    /// Names of the numbers, the callbacks by their offsets, and the conduit. Numbers and offsets rise, and a
    /// capability is one of the 53.
    pub fn new(
        numbers: Vec<(u16, Named)>,
        callbacks: Vec<(u32, CallbackKind)>,
        conduit: Conduit,
    ) -> Names
        requires numbers_rise { IsStrictlyIncreasing (map (λ e. e.0) numbers.items) }
        requires offsets_rise { IsStrictlyIncreasing (map (λ e. e.0) callbacks.items) }
        requires known { All (λ e. IsKnown e.1) numbers.items }
        ensures { result ≡ record { numbers = numbers.items; callbacks = callbacks.items; conduit = conduit } }
    {
        Names {
            numbers,
            callbacks,
            conduit,
        }
    }

    /// What the number stands for. None exactly where it is not named.
    pub fn find(&self, number: u16) -> Option<Named>
        ensures value { result ≡ number_named self.now number }
        ensures known { IfSome result IsKnown }
    {
        match self.numbers.binary_search_by_key(&number, |entry| entry.0) {
            Ok(place) => Some(self.numbers[place].1),
            Err(_) => None,
        }
    }

    /// The kind of the callback at this offset from the image's first byte. None exactly where it is not named.
    pub fn callback(&self, offset: i64) -> Option<CallbackKind>
        ensures { result ≡ callback_named self.now offset }
    {
        match u64::try_from(offset) {
            Ok(offset) => self.callback_at(offset),
            Err(_) => None,
        }
    }

    // The kind of the callback at an offset that is not before the image.
    fn callback_at(&self, offset: u64) -> Option<CallbackKind>
        ensures { result ≡ value_at self.now.callbacks offset }
    {
        match self
            .callbacks
            .binary_search_by_key(&offset, |entry| u64::from(entry.0))
        {
            Ok(place) => Some(self.callbacks[place].1),
            Err(_) => None,
        }
    }

    /// How the kernel calls the firmware.
    pub fn conduit(&self) -> Conduit
        ensures { result ≡ self.now.conduit }
    {
        self.conduit
    }
}
