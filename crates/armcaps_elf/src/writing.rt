//! The file with a flat image put back into it.

ghost use Rattle.std.specs.Prelude.{◌≡◌, ◌+◌, ◌-◌, ◌++◌, ◌≤◌, OnErr, OnOk, drop, length, map, take};
ghost use Rattle.std.specs.List.{All, AllPairs, range_with_len, slice_range};
ghost use Rattle.armcaps_io.specs.Causes.{Rose};
ghost use Rattle.armcaps_io.specs.Streams.{Appends, AppendsPrefix};
ghost use Rattle.armcaps_elf.specs.Images.{put_byte, put_image};
ghost use Rattle.armcaps_elf.specs.Sections.{Follows};
ghost use Rattle.armcaps_elf.specs.Standing.{StandsFor};

use crate::elf::Elf;
use crate::section::Section;
use armcaps_io::{Sink, WriteFault, write_whole};

impl Elf {
    /// Writes the file that was read, with the bytes of its loaded sections taken from a flat image. It takes no
    /// memory, and copies no byte.
    ///
    /// After `WriteFault` the sink has got a first part of it.
    pub fn write_back<O: Sink>(
        &self,
        file: &[u8],
        flat: &[u8],
        sink: &mut O,
    ) -> Result<(), WriteFault>
        requires stands { StandsFor self.now file.now }
        requires span { length flat.now ≡ self.now.span }
        ensures whole { OnOk result (Appends (O.held sink.old) (O.held sink.new) (put_image file.now flat.now)) }
        ensures prefix { OnErr result
            (AppendsPrefix (O.held sink.old) (O.held sink.new) (put_image file.now flat.now)) }
        ensures never_falls { O.faults sink.old ≤ O.faults sink.new }
        ensures cause { OnErr result (Rose (O.faults sink.old) (O.faults sink.new)) }
    {
        write_sections(self.in_file_order(), self.base(), file, flat, sink)
    }
}

// Writes the file with the bytes of these sections, which stand in the order of their places, taken from a flat image
// that begins at the base.
fn write_sections<O: Sink>(
    sections: &[Section],
    base: u64,
    file: &[u8],
    flat: &[u8],
    sink: &mut O,
) -> Result<(), WriteFault>
    requires rise { AllPairs (Follows (λ section. section.place)) sections.now }
    requires inside { All (λ section. section.place + section.size ≤ length file.now) sections.now }
    requires above { All (λ section. base ≤ section.address) sections.now }
    requires below { All (λ section. section.address + section.size ≤ base + length flat.now) sections.now }
    ensures whole { OnOk result (Appends (O.held sink.old) (O.held sink.new)
        (map (put_byte sections.now base file.now flat.now) (range_with_len 0 (length file.now)))) }
    ensures prefix { OnErr result (AppendsPrefix (O.held sink.old) (O.held sink.new)
        (map (put_byte sections.now base file.now flat.now) (range_with_len 0 (length file.now)))) }
    ensures never_falls { O.faults sink.old ≤ O.faults sink.new }
    ensures cause { OnErr result (Rose (O.faults sink.old) (O.faults sink.new)) }
{
    let mut done = 0;
    for section in sections {
        write_section(section, base, done, file, flat, sink)?;
        done = (section.place + section.size) as usize;
    }
    write_whole(sink, &file[done..])
}

// Writes the file's bytes from one place on to a section's begin, and then the section's bytes from the flat image.
fn write_section<O: Sink>(
    section: &Section,
    base: u64,
    done: usize,
    file: &[u8],
    flat: &[u8],
    sink: &mut O,
) -> Result<(), WriteFault>
    requires behind { done ≤ section.now.place }
    requires inside { section.now.place ≤ length file.now }
    requires above { base ≤ section.now.address }
    requires below { section.now.address + section.now.size ≤ base + length flat.now }
    ensures whole { OnOk result (Appends (O.held sink.old) (O.held sink.new)
        (slice_range file.now done section.now.place
        ++ take section.now.size (drop (section.now.address - base) flat.now))) }
    ensures prefix { OnErr result (AppendsPrefix (O.held sink.old) (O.held sink.new)
        (slice_range file.now done section.now.place
        ++ take section.now.size (drop (section.now.address - base) flat.now))) }
    ensures never_falls { O.faults sink.old ≤ O.faults sink.new }
    ensures cause { OnErr result (Rose (O.faults sink.old) (O.faults sink.new)) }
{
    write_whole(sink, &file[done..section.place as usize])?;
    let from = (section.address - base) as usize;
    write_whole(sink, &flat[from..from + section.size as usize])
}
