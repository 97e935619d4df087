//! Plans of patched images: what they keep, how much it is, and how they write.

ghost use Rattle.std.specs.Prelude.{◌≡◌, ◌+◌, ◌/◌, ◌%◌, ◌^◌, ◌<◌, ◌≤◌, ℕ, List, IfOk, OnErr, OnOk, length, map, slice_index, sum_by};
ghost use Rattle.std.specs.List.{All, range_with_len};
ghost use Rattle.armcaps_io.specs.Causes.{Rose};
ghost use Rattle.armcaps_io.specs.Streams.{Appends, AppendsPrefix};
ghost use Rattle.armcaps_alt.specs.declared.table_place.Layout.{Layout};
ghost use Rattle.armcaps_alt.specs.Entries.{Features, selected_of};
ghost use Rattle.armcaps_alt.specs.Patched.{patched_image};
ghost use Rattle.armcaps_patch.specs.Counting.{words_of_sites};
ghost use Rattle.armcaps_patch.specs.Buckets.{sites_at};
ghost use Rattle.armcaps_patch.specs.Index.{Tells, last_at};
ghost use Rattle.armcaps_patch.specs.Kept.{IsKept, StandsFor, kept_covers, planned_byte, planned_image};

use crate::buckets::{Buckets, by_bucket};
use crate::kept::Kept;
use crate::nearby::numbers_in;
use crate::patched::Patched;
use crate::pieces::put_words;
use crate::slots::mark_all;
use armcaps_alt::Conduit;
use armcaps_io::{Sink, WriteFault, send_all};
use std::alloc::{AllocError, Global};
use std::marker::Model;

/// What is to be patched in an image: the selected entries of its table in their order, and their numbers by where
/// their sites begin.
#[derive(Debug, Drop)]
pub struct Plan {
    kept: Vec<Kept>,
    buckets: Buckets,
    size: u32,
    ctr: u64,
    conduit: Conduit,
}

impl Model for Plan {
    ghost use Rattle.armcaps_patch.specs.Buckets.{IsPlan};
    ghost use Rattle.armcaps_patch.specs.Kept.{Planned};

    ghost Value = { Planned };

    ghost view = { λ p. record { kept = p.kept.items; size = p.size; ctr = p.ctr; conduit = p.conduit } };

    ghost invariant = { λ p. IsPlan p.size p.kept.items p.buckets.numbers.items p.buckets.ends.items };
}

impl Plan {
    // A plan of what it keeps. All memory is taken here.
    pub(crate) fn of(
        alloc: Global,
        kept: Vec<Kept>,
        size: u32,
        ctr: u64,
        conduit: Conduit,
    ) -> Result<Plan, AllocError>
        requires size { size ≤ 2 ^ 29 }
        requires few { length kept.items ≤ 2 ^ 26 }
        requires kept { All (IsKept size) kept.items }
        ensures { IfOk result (λ plan. plan ≡ record { kept = kept.items; size = size; ctr = ctr; conduit = conduit }) }
    {
        let buckets = by_bucket(alloc, &kept, size as usize)?;
        Ok(Plan {
            kept,
            buckets,
            size,
            ctr,
            conduit,
        })
    }
}

impl Plan {
    /// How many entries are selected.
    pub fn count_entries(&self) -> u32
        ensures { (features : Features) (image : List ℕ) (layout : Layout) → StandsFor self.now features image layout
            → result ≡ length (selected_of features image layout) }
    {
        self.kept.as_slice().len() as u32
    }

    /// How many words the sites of the selected entries have: a word that lies in two sites counts twice.
    pub fn count_words(&self) -> u32
        ensures { (features : Features) (image : List ℕ) (layout : Layout) → StandsFor self.now features image layout
            → result ≡ words_of_sites (selected_of features image layout) }
    {
        words_of_kept(&self.kept)
    }
}

impl Plan {
    /// Writes the patched image of the image that was checked, in pieces of at most 4096 bytes. It takes no memory.
    ///
    /// After `WriteFault` the sink has got a first part of it.
    pub fn write<O: Sink>(&self, image: &[u8], sink: &mut O) -> Result<(), WriteFault>
        requires { length image.now ≡ self.now.size }
        ensures whole { (features : Features) (layout : Layout) → StandsFor self.now features image.now layout
            → OnOk result (Appends (O.held sink.old) (O.held sink.new) (patched_image features image.now layout)) }
        ensures prefix { (features : Features) (layout : Layout) → StandsFor self.now features image.now layout
            → OnErr result
            (AppendsPrefix (O.held sink.old) (O.held sink.new) (patched_image features image.now layout)) }
        ensures never_falls { O.faults sink.old ≤ O.faults sink.new }
        ensures cause { OnErr result (Rose (O.faults sink.old) (O.faults sink.new)) }
    {
        send_all(&Patched { plan: self, image }, sink)
    }
}

impl Plan {
    // The numbers of what is kept whose sites can cover places from one on to another: the greatest stamp of theirs on a
    // place tells the last kept entry that covers it.
    pub(crate) fn nearby(&self, from: usize, to: usize) -> &[u32]
        requires order { from ≤ to }
        requires within { to ≤ self.now.size }
        ensures small { self.now.size ≤ 2 ^ 29 }
        ensures tells { (place : ℕ) → from ≤ place → place < to
            → Tells (kept_covers place) (last_at place (sites_at self.now.kept result.now)) 0 self.now.kept }
        ensures known { All (λ number. number < length self.now.kept) result.now }
    {
        numbers_in(
            &self.buckets,
            (from / 256).saturating_sub(1),
            to.saturating_sub(1) / 256,
        )
    }

    // Fills a buffer with the bytes of the patched image from a place on, by the sites that can cover them.
    pub(crate) fn fill(
        &self,
        image: &[u8],
        from: usize,
        nearby: &[u32],
        buffer: &mut [u8],
        slots: &mut [u32],
    )
        requires size { length image.now ≡ self.now.size }
        requires small { length image.now ≤ 2 ^ 29 }
        requires aligned { from % 4 ≡ 0 }
        requires within { from + length buffer.old ≤ length image.now }
        requires tells { (place : ℕ) → from ≤ place → place < from + length buffer.old
            → Tells (kept_covers place) (last_at place (sites_at self.now.kept nearby.now)) 0 self.now.kept }
        requires known { All (λ number. number < length self.now.kept) nearby.now }
        requires slots { length slots.old ≡ length buffer.old / 4 }
        requires ends { from + length buffer.old < length image.now → length buffer.old % 4 ≡ 0 }
        ensures length { length buffer.new ≡ length buffer.old }
        ensures bytes { (j : ℕ) → j < length buffer.new
            → slice_index buffer.new j ≡ planned_byte self.now image.now (from + j) }
    {
        buffer.copy_from_slice(&image[from..from + buffer.len()]);
        slots.fill(0);
        mark_all(slots, from as u32, nearby, &self.kept);
        put_words(
            buffer,
            from as u32,
            slots,
            &self.kept,
            image,
            self.ctr,
            self.conduit,
        );
    }
}

// How many words the sites of what is kept have.
fn words_of_kept(kept: &[Kept]) -> u32
    requires { length kept.now ≤ 2 ^ 26 }
    ensures { result ≡ sum_by (λ entry. entry.len / 4) kept.now }
{
    let mut words = 0;
    for entry in kept {
        words += u32::from(entry.len / 4);
    }
    words
}
