ghost use Rattle.std.specs.Prelude.{◌≡◌, ◌+◌, ◌/◌, ◌%◌, ◌<◌, ◌≤◌, ℕ, OnErr, OnOk, length};
ghost use Rattle.std.specs.List.{All};
ghost use Rattle.armcaps_image.specs.Last.{last_that};
ghost use Rattle.armcaps_io.specs.Causes.{Rose};
ghost use Rattle.armcaps_io.specs.Streams.{Appends, AppendsPrefix};
ghost use Rattle.armcaps_jump.specs.Grouping.{sites_in};
ghost use Rattle.armcaps_jump.specs.Jumped.{has_byte, jump_image};
ghost use Rattle.armcaps_jump.specs.Standing.{IsInPiece, StandsFor};

use crate::grouping::Grouped;
use crate::jumped::Jumped;
use crate::nearby::sites_in;
use crate::site::Site;
use armcaps_io::{Sink, WriteFault, send_all};
use std::marker::Model;

/// The jump labels of an image: the words that its entries put at their code places.
#[derive(Debug, Drop)]
pub struct Jumps {
    pub(crate) grouped: Grouped,
    pub(crate) size: u32,
}

impl Model for Jumps {
    ghost use Rattle.armcaps_jump.specs.Standing.{AreSites, JumpSites};

    ghost Value = { JumpSites };

    ghost view = { λ j. record { sites = j.grouped.sites.items; ends = j.grouped.ends.items; size = j.size } };

    ghost invariant = { λ j. AreSites
        (record { sites = j.grouped.sites.items; ends = j.grouped.ends.items; size = j.size }) };
}

impl Jumps {
    /// Writes the image that was checked with its jump labels applied, in pieces of at most 4096 bytes. It takes no
    /// memory.
    ///
    /// After `WriteFault` the sink has got a first part of it.
    pub fn write<O: Sink>(&self, image: &[u8], sink: &mut O) -> Result<(), WriteFault>
        requires { length image.now ≡ self.now.size }
        ensures whole { (table count : ℕ) → StandsFor self.now image.now table count
            → OnOk result (Appends (O.held sink.old) (O.held sink.new) (jump_image image.now table count)) }
        ensures prefix { (table count : ℕ) → StandsFor self.now image.now table count
            → OnErr result (AppendsPrefix (O.held sink.old) (O.held sink.new) (jump_image image.now table count)) }
        ensures never_falls { O.faults sink.old ≤ O.faults sink.new }
        ensures cause { OnErr result (Rose (O.faults sink.old) (O.faults sink.new)) }
    {
        send_all(&Jumped { jumps: self, image }, sink)
    }

    // The sites in the piece from one place to another, where the next piece begins or the image ends.
    pub(crate) fn nearby(&self, from: usize, to: usize) -> &[Site]
        requires order { from ≤ to }
        requires begins { from % 4096 ≡ 0 }
        requires within { to ≤ self.now.size }
        requires short { to ≤ from + 4096 }
        requires ends { to < self.now.size → to ≡ from + 4096 }
        ensures each { All (IsInPiece from to) result.now }
        ensures last { (place : ℕ) → from ≤ place → place < to → last_that (has_byte place) result.now
            ≡ last_that (has_byte place) (sites_in self.now.sites self.now.ends (place / 4096)) }
    {
        sites_in(&self.grouped, from / 4096)
    }
}
