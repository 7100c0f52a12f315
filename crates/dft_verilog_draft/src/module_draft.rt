ghost use Rattle.std.specs.Prelude.{◌≡◌, ◌+◌, ◌<◌, ◌≤◌, ◌++◌, ◌∷◌, [], None, OnOk, IfOk, IfSome, option_copied, length, drop, slice_set};
ghost use Rattle.dft_base.specs.Name.{IsName};
ghost use Rattle.dft_netlist_text.specs.Modules as spec;
ghost use Rattle.dft_netlist_text.specs.NetlistText.{first_undeclared};
ghost use Rattle.dft_verilog_draft.specs.Drafts.{IsDraft, IsMeaningWithin, IsDeclaredWithin, InstanceFits, JoinFits, nets_alone};
ghost use Rattle.dft_verilog_draft.specs.Free.{AreFreeBits, with_bits_of};
ghost use Rattle.dft_verilog_draft.specs.TakenNames.{and_put, and_net};

use crate::draft_instance::DraftInstance;
use crate::header_port::HeaderPort;
use crate::taken_names::TakenNames;
use dft_base::{Name, Range};
use dft_cells::Library;
use dft_netlist::{Join, MAX_INSTANCES, MAX_NETS, MAX_PORTS};
use dft_netlist_text::{Declared, Meaning};
use dft_verilog_tokens::Word;
use std::alloc::{AllocError, Global};
use std::marker::Model;

/// What a module has said so far (IEEE 1364): the names that are taken, its ports, nets, instances and joins. Nets are
/// numbered in the order in which they were first named. A call that fails leaves a draft of which nothing is known.
#[derive(Debug)]
pub struct ModuleDraft<'a> {
    alloc: Global,
    name: Name,
    library: Library,
    names: TakenNames<'a>,
    ports: Vec<HeaderPort>,
    nets: Vec<Word<'a>>,
    instances: Vec<DraftInstance<'a>>,
    joins: Vec<Join>,
}

// One call for all fields, so that the proof of what owns a value stays short.
impl Drop for ModuleDraft<'_> {
    fn drop(self) {
        let ModuleDraft {
            alloc: _,
            name: _,
            library: _,
            names: _,
            ports: _,
            nets: _,
            instances: _,
            joins: _,
        } = self;
    }
}

impl<'a> Model for ModuleDraft<'a> {
    ghost use Rattle.dft_netlist_text.specs.Modules.{Draft};

    ghost Value = { Draft };

    ghost use Rattle.dft_verilog_draft.specs.ModuleDraftShown.{draft_of, IsModuleDraft};

    ghost view = { draft_of };

    ghost invariant = { IsModuleDraft };
}

impl<'a> ModuleDraft<'a> {
    /// The module with this name that has said nothing yet.
    pub fn new(alloc: Global, name: Name, library: Library) -> ModuleDraft<'a>
        ensures { result ≡ spec.empty_draft name library }
    {
        ModuleDraft {
            alloc,
            name,
            library,
            names: TakenNames::new(alloc),
            ports: Vec::new(alloc),
            nets: Vec::new(alloc),
            instances: Vec::new(alloc),
            joins: Vec::new(alloc),
        }
    }

    /// The allocator of its parts.
    pub fn alloc(&self) -> Global {
        self.alloc
    }

    /// What this name stands for, if it is taken.
    pub fn meaning(&self, word: &[u8]) -> Option<Meaning>
        ensures meaning { result ≡ spec.meaning_of self.now word.now }
        ensures within { IfSome result (IsMeaningWithin (length self.now.nets)) }
        ensures few { length self.now.nets ≤ MAX_NETS }
    {
        self.names.meaning(word)
    }

    /// The first port of the header that was not declared.
    pub fn first_undeclared(&self) -> Option<&Name>
        ensures { option_copied result ≡ first_undeclared self.now.ports }
    {
        for port in &self.ports {
            if port.declared().is_none() {
                return Some(port.name());
            }
        }
        None
    }

    /// The module's name.
    pub fn name(&self) -> &Name
        ensures { result.now ≡ self.now.name }
    {
        &self.name
    }

    /// The cells that its instances may name.
    pub fn library(&self) -> &Library
        ensures { result.now ≡ self.now.library }
    {
        &self.library
    }

    /// The ports of the header.
    pub fn ports(&self) -> &[HeaderPort]
        ensures ports { result.now ≡ self.now.ports }
        ensures draft { IsDraft self.now }
    {
        &self.ports
    }

    /// The printed name of each net.
    pub fn nets(&self) -> &[Word<'a>]
        ensures nets { result.now ≡ self.now.nets }
        ensures draft { IsDraft self.now }
    {
        &self.nets
    }

    /// The instances.
    pub fn instances(&self) -> &[DraftInstance<'a>]
        ensures instances { result.now ≡ self.now.instances }
        ensures draft { IsDraft self.now }
    {
        &self.instances
    }

    /// The joins.
    pub fn joins(&self) -> &[Join]
        ensures joins { result.now ≡ self.now.joins }
        ensures draft { IsDraft self.now }
    {
        &self.joins
    }

    /// How many nets there are.
    pub fn net_count(&self) -> usize
        ensures count { result ≡ length self.now.nets }
        ensures few { result ≤ MAX_NETS }
    {
        self.nets.len()
    }

    /// How many ports the header has.
    pub fn port_count(&self) -> usize
        ensures count { result ≡ length self.now.ports }
        ensures few { result ≤ MAX_PORTS }
    {
        self.ports.len()
    }

    /// How many instances there are.
    pub fn instance_count(&self) -> usize
        ensures count { result ≡ length self.now.instances }
        ensures few { result ≤ MAX_INSTANCES }
    {
        self.instances.len()
    }

    /// How the port at this place of the header was declared, if it was.
    pub fn declared(&self, port: usize) -> Option<Declared>
        ensures declared { result ≡ spec.declared_at self.now port }
        ensures within { IsDeclaredWithin (length self.now.nets) result }
        ensures few { length self.now.nets ≤ MAX_NETS }
    {
        match self.ports.get(port) {
            Some(port) => port.declared(),
            None => None,
        }
    }

    /// Lets go of the names that are taken; what they stand for stays.
    pub fn without_names(self) -> ModuleDraft<'a>
        ensures { result ≡ record self.entry { names = [] } }
    {
        let ModuleDraft {
            alloc,
            name,
            library,
            names: _,
            ports,
            nets,
            instances,
            joins,
        } = self;
        ModuleDraft {
            alloc,
            name,
            library,
            names: TakenNames::new(alloc),
            ports,
            nets,
            instances,
            joins,
        }
    }

    /// Its library, without all that it has said.
    pub fn into_library(self) -> Library
        ensures { result ≡ self.entry.library }
    {
        let ModuleDraft {
            alloc: _,
            name: _,
            library,
            names: _,
            ports: _,
            nets: _,
            instances: _,
            joins: _,
        } = self;
        library
    }

    // Takes a name that is free.
    pub(crate) fn take(&mut self, word: &'a [u8], meaning: Meaning) -> Result<(), AllocError>
        requires name { IsName word.now }
        requires free { spec.meaning_of self.old word.now ≡ None }
        requires within { IsMeaningWithin (length self.old.nets) meaning }
        ensures { OnOk result (self.new ≡ spec.with_name word.now meaning self.old) }
    {
        self.names.take(Word::read(word), meaning)
    }

    // Takes a name if it is free. Tells what it stood for before.
    pub(crate) fn put(
        &mut self,
        word: &'a [u8],
        meaning: Meaning,
    ) -> Result<Option<Meaning>, AllocError>
        requires name { IsName word.now }
        requires within { IsMeaningWithin (length self.old.nets) meaning }
        ensures before { IfOk result (λ before. before ≡ spec.meaning_of self.old word.now) }
        ensures names { IfOk result (λ before. self.new ≡ record self.old { names = and_put word.now meaning before self.old.names }) }
    {
        self.names.put(Word::read(word), meaning)
    }

    // A name that is free stands for one net of this name from here on. Tells what it stood for before.
    pub(crate) fn put_net(&mut self, word: &'a [u8]) -> Result<Option<Meaning>, AllocError>
        requires name { IsName word.now }
        requires room { length self.old.nets < MAX_NETS }
        ensures before { IfOk result (λ before. before ≡ spec.meaning_of self.old word.now) }
        ensures names { IfOk result (λ before. self.new ≡ and_net word.now before self.old) }
    {
        let meaning = Meaning::Nets(self.next_shape(None));
        self.nets.reserve(1)?;
        match self.names.put(Word::read(word), meaning)? {
            None => {
                self.nets.push_reserved(Word::read(word));
                Ok(None)
            }
            Some(before) => Ok(Some(before)),
        }
    }

    // Takes the names of a vector's bits, which are those of the nets from this one on.
    pub(crate) fn take_bits(&mut self, range: Option<Range>, first: usize) -> Result<(), AllocError>
        requires within { first ≤ length self.old.nets }
        requires free { AreFreeBits range self.old.names (drop first self.old.nets) }
        ensures { OnOk result (self.new ≡ with_bits_of range (drop first self.old.nets) self.old) }
    {
        match range {
            Some(_) => {
                let (_, bits) = self.nets.split_at(first);
                self.names.take_bits(self.alloc, bits)
            }
            None => Ok(()),
        }
    }

    // Adds a net of this name.
    pub(crate) fn add_net(&mut self, word: &'a [u8]) -> Result<(), AllocError>
        requires name { IsName word.now }
        requires room { length self.old.nets < MAX_NETS }
        ensures { OnOk result (self.new ≡ record self.old { nets = self.old.nets ++ word.now ∷ [] }) }
    {
        self.nets.push(Word::read(word))?;
        Ok(())
    }

    // Adds nets of these names.
    pub(crate) fn add_nets(&mut self, mut names: Vec<Word<'a>>) -> Result<(), AllocError>
        requires { length self.old.nets + length names.items ≤ MAX_NETS }
        ensures { OnOk result (self.new ≡ record self.old { nets = self.old.nets ++ names.entry.items }) }
    {
        self.nets.append(&mut names)
    }

    // Adds a port at the end of the header.
    pub(crate) fn add_port(&mut self, port: HeaderPort) -> Result<(), AllocError>
        requires room { length self.old.ports < MAX_PORTS }
        requires within { IsDeclaredWithin (length self.old.nets) port.declared }
        ensures { OnOk result (self.new ≡ record self.old { ports = self.old.ports ++ port ∷ [] }) }
    {
        self.ports.push(port)?;
        Ok(())
    }

    // Puts this port at a place of the header.
    pub(crate) fn set_port(&mut self, place: usize, port: HeaderPort)
        requires { IsDeclaredWithin (length self.old.nets) port.declared }
        ensures { self.new ≡ record self.old { ports = slice_set self.old.ports place port } }
    {
        if place < self.ports.len() {
            self.ports[place] = port;
        }
    }

    /// Adds an instance that can stand among its nets.
    pub fn add_instance(&mut self, instance: DraftInstance<'a>) -> Result<(), AllocError>
        requires room { length self.old.instances < MAX_INSTANCES }
        requires fits { InstanceFits (nets_alone self.old) instance }
        ensures { OnOk result (self.new ≡ spec.with_instance instance.entry self.old) }
    {
        self.instances.push(instance)?;
        Ok(())
    }

    /// Adds a join that can stand among its nets.
    pub fn add_join(&mut self, join: Join) -> Result<(), AllocError>
        requires { JoinFits (nets_alone self.old) join }
        ensures { OnOk result (self.new ≡ spec.with_join join self.old) }
    {
        self.joins.push(join)?;
        Ok(())
    }
}
