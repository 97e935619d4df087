// The reader: what it keeps of the lines that it has read.
ghost use Rattle.std.specs.Prelude.{◌≡◌, IfOk, OnOk, unwrap_or};
ghost use Rattle.std.specs.BTreeMap.{IsOrdered};
ghost use Rattle.std.specs.FinMap.{entries};
ghost use Rattle.std.specs.List.{All};
ghost use Rattle.armcaps_alt.specs.Names.{IsKnown};
ghost use Rattle.armcaps_alt.specs.declared.smccc_conduit.Conduit.TheVariants as way;
ghost use Rattle.armcaps_text.specs.Reader.{map_of};

use crate::format::Format;
use crate::kind::TextRefused;
use crate::line::Line;
use crate::machine::Machine;
use crate::steps::Steps;
use armcaps_alt::{CallbackKind, Conduit, Layout, Named, Names};
use armcaps_board::{Board, StepLine};
use armcaps_cmdline::parse;
use armcaps_enc::SysReg;
use armcaps_tables::CoreRegs;
use std::alloc::{AllocError, Global};
use std::collections::BTreeMap;

/// What the lines read so far come to.
#[derive(Drop)]
pub struct Reader<'a> {
    /// The cores begun so far.
    pub cores: Vec<CoreRegs>,
    /// The registers given since the last core was begun.
    pub named: Vec<SysReg>,
    /// Whether vector lengths were given since then.
    pub measured: bool,
    /// The boot core.
    pub boot: Option<u32>,
    /// The command line.
    pub command_line: Option<&'a [u8]>,
    /// The steps so far.
    pub steps: Steps,
    /// The numbers named so far.
    pub numbers: BTreeMap<u16, Named>,
    /// The callbacks named so far, by their offsets.
    pub callbacks: BTreeMap<u32, CallbackKind>,
    /// How the kernel calls the firmware.
    pub conduit: Option<Conduit>,
    /// Where the table of alternatives lies.
    pub layout: Option<Layout>,
    /// How many bytes the image has.
    pub image: Option<u32>,
    /// The greatest section that a line has stood in.
    pub section: u8,
}

// The entries of a map, in the order of their keys.
fn entries_of<K: Ord + Drop, V: Drop>(
    alloc: Global,
    map: BTreeMap<K, V>,
) -> Result<Vec<(K, V)>, AllocError>
    ensures items { IfOk result (λ entries. entries.items ≡ map.entries) }
    ensures ordered { OnOk result (IsOrdered K.cmp map) }
{
    map.into_iter().collect(alloc)
}

// What the numbers and callbacks stand for.
fn make_names(
    alloc: Global,
    numbers: BTreeMap<u16, Named>,
    callbacks: BTreeMap<u32, CallbackKind>,
    conduit: Option<Conduit>,
) -> Result<Names, AllocError>
    requires { All (λ e. IsKnown e.1) (entries (map_of numbers)) }
    ensures { IfOk result (λ names. names ≡ record {
      numbers = entries (map_of numbers);
      callbacks = entries (map_of callbacks);
      conduit = unwrap_or conduit way.None;
    }) }
{
    let numbers = entries_of(alloc, numbers)?;
    let callbacks = entries_of(alloc, callbacks)?;
    Ok(Names::new(numbers, callbacks, conduit.unwrap_or(Conduit::None)))
}

impl<'a> Reader<'a> {
    ghost use Rattle.std.specs.Prelude.{◌≡◌, ◌+◌, ◌<◌, ◌^◌, [], ◌∷◌, ◌++◌, OnOk, IfErr, IsSome, false, max, Some, None};
    ghost use Rattle.armcaps_alt.specs.declared.named_number.Named.{Named};
    ghost use Rattle.armcaps_text.specs.Before.{before};
    ghost use Rattle.armcaps_text.specs.Document.{reading_after, reading_of, IsRefusalAt};
    ghost use Rattle.armcaps_text.specs.KindAtLine.{kind_after};
    ghost use Rattle.armcaps_text.specs.Learned.{zero_core, with_last, with_word, with_lengths, named_after, measured_after, put_into, learned};
    ghost use Rattle.armcaps_text.specs.Meaning.{plain, section_of};
    ghost use Rattle.armcaps_text.specs.Reader.{so_far};
    ghost use Rattle.armcaps_text.specs.declared.line.Line.TheVariants as line;

    /// A reader before the first line.
    #[tactic(auto, unfolding(crate::specs::Before::before))]
    pub fn new(alloc: Global) -> Reader<'a>
        ensures { so_far result ≡ before [] }
    {
        Reader {
            cores: Vec::new(alloc),
            named: Vec::new(alloc),
            measured: false,
            boot: None,
            command_line: None,
            steps: Steps::new(alloc),
            numbers: BTreeMap::new(alloc),
            callbacks: BTreeMap::new(alloc),
            conduit: None,
            layout: None,
            image: None,
            section: 0,
        }
    }

    // Begins a core.
    fn begin_core(&mut self) -> Result<(), AllocError>
        ensures { OnOk result (so_far self.new ≡ record (so_far self.old) {
          cores = (so_far self.old).cores ++ zero_core ∷ [];
          named = [];
          measured = false;
        }) }
    {
        self.cores.push(CoreRegs::zero())?;
        self.named.clear();
        self.measured = false;
        Ok(())
    }

    // Gives a word to a register of the core begun last.
    fn set_register(&mut self, reg: SysReg, word: u64) -> Result<(), AllocError>
        ensures { OnOk result (so_far self.new ≡ record (so_far self.old) {
          cores = with_last (with_word reg word) (so_far self.old).cores;
          named = named_after (so_far self.old).cores (so_far self.old).named (line.Register reg word);
        }) }
    {
        if let Some(last) = self.cores.len().checked_sub(1) {
            self.named.push(reg)?;
            let core = &mut self.cores[last];
            core.set(reg, word);
        }
        Ok(())
    }

    // Gives vector lengths to the core begun last.
    fn set_lengths(&mut self, lengths: u16)
        ensures { so_far self.new ≡ record (so_far self.old) {
          cores = with_last (with_lengths lengths) (so_far self.old).cores;
          measured = measured_after (so_far self.old).cores (so_far self.old).measured
              (line.VectorLengths lengths);
        } }
    {
        if let Some(last) = self.cores.len().checked_sub(1) {
            self.measured = true;
            let core = &mut self.cores[last];
            core.set_vls(lengths);
        }
    }

    // Adds a step.
    fn add_step(&mut self, step: StepLine) -> Result<(), AllocError>
        ensures { OnOk result (so_far self.new
            ≡ record (so_far self.old) { steps = (so_far self.old).steps ++ step ∷ [] }) }
    {
        self.steps.push(step)
    }

    // Names a number.
    #[tactic(auto, using(crate::proofs::Maps::put_entry))]
    fn name(&mut self, number: u16, named: Named) -> Result<(), AllocError>
        ensures { OnOk result (so_far self.new ≡ record (so_far self.old) {
          numbers = put_into (so_far self.old).numbers (Some (number, named));
        }) }
    {
        self.numbers.insert(number, named)?;
        Ok(())
    }

    // Names a callback.
    #[tactic(auto, using(crate::proofs::Maps::put_entry))]
    fn call(&mut self, offset: u32, kind: CallbackKind) -> Result<(), AllocError>
        ensures { OnOk result (so_far self.new ≡ record (so_far self.old) {
          callbacks = put_into (so_far self.old).callbacks (Some (offset, kind));
        }) }
    {
        self.callbacks.insert(offset, kind)?;
        Ok(())
    }

    // Notes the section of a line.
    fn reach(&mut self, section: u8)
        ensures { so_far self.new ≡ record (so_far self.old) { section = max (so_far self.old).section section } }
    {
        self.section = self.section.max(section);
    }

    /// Takes in what a line says.
    #[tactic(auto, unfolding(crate::specs::Learned::learned))]
    pub fn learn(&mut self, line: &Line<&'a [u8]>) -> Result<(), AllocError>
        ensures { OnOk result (so_far self.new ≡ learned (so_far self.old) (plain line.now)) }
    {
        self.reach(line.section());
        match *line {
            Line::Core(_) => self.begin_core()?,
            Line::Register(reg, word) => self.set_register(reg, word)?,
            Line::VectorLengths(lengths) => self.set_lengths(lengths),
            Line::Boot(core) => self.boot = Some(core),
            Line::CommandLine(text) => self.command_line = Some(text),
            Line::Step(step) => self.add_step(step)?,
            Line::Number(number, capability) => self.name(number, Named::Cap(capability))?,
            Line::Given(number, on) => self.name(number, Named::Given(on))?,
            Line::Conduit(conduit) => self.conduit = Some(conduit),
            Line::Callback(offset, kind) => self.call(offset, kind)?,
            Line::Table(layout) => self.layout = Some(layout),
            Line::Image(length) => self.image = Some(length),
            Line::Skipped | Line::Unknown | Line::Malformed(_, _) | Line::Header => {}
        }
        Ok(())
    }

    /// Takes in a line after this many others after line 1.
    pub fn take(
        &mut self,
        format: Format,
        lines: u32,
        line: &Line<&'a [u8]>,
    ) -> Result<(), TextRefused>
        requires { lines + 2 < 2 ^ 32 }
        ensures kind { OnOk result (kind_after format (so_far self.old) (plain line.now) ≡ None) }
        ensures kept { OnOk result (so_far self.new ≡ learned (so_far self.old) (plain line.now)) }
        ensures refused { IfErr result (λ refused.
            IsRefusalAt (kind_after format (so_far self.old) (plain line.now)) lines refused) }
    {
        if let Some(kind) = self.kind_at(format, line) {
            return Err(TextRefused::Line {
                line: lines + 2,
                kind,
            });
        }
        match self.learn(line) {
            Ok(()) => Ok(()),
            Err(_) => Err(TextRefused::Memory),
        }
    }

    /// The machine that the lines describe, once they name its boot core and the image.
    pub fn machine(self, alloc: Global) -> Result<Machine, AllocError>
        requires boot { IsSome (so_far self).boot }
        requires image { IsSome (so_far self).image }
        requires known { All (λ e. IsKnown e.1) (entries (so_far self).numbers) }
        ensures { IfOk result (λ machine. reading_of machine ≡ reading_after (so_far self.entry)) }
    {
        let Reader {
            cores,
            named: _,
            measured: _,
            boot,
            command_line,
            steps,
            numbers,
            callbacks,
            conduit,
            layout,
            image,
            section: _,
        } = self;
        let names = make_names(alloc, numbers, callbacks, conduit)?;
        Ok(Machine {
            board: Board {
                cores,
                boot: boot.unwrap(),
                overrides: parse(command_line.unwrap_or(&[])),
            },
            steps: steps.into_vec(),
            names,
            layout: layout.unwrap_or(Layout { table: 0, count: 0 }),
            image: image.unwrap(),
        })
    }
}
