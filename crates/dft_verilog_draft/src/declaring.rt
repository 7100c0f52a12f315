//! Declarations of a module: ports, wires and instances take names (IEEE 1364).

ghost use Rattle.std.specs.Prelude.{◌≡◌, ◌+◌, ◌<◌, ◌≤◌, ◌++◌, length, not, nat_lt, None, Some, Ok, IfOk, option_copied};
ghost use Rattle.dft_base.specs.Name.{IsName};
ghost use Rattle.dft_modules.specs.SubInstances.{name_sub};
ghost use Rattle.dft_netlist_text.specs.Modules as spec;
ghost use Rattle.dft_verilog_tokens.specs.Reading.{Checks};
ghost use Rattle.dft_verilog_draft.specs.Free.{AreBitsApart, new_bits};

use crate::bits::bit_names;
use crate::header_port::HeaderPort;
use crate::module_draft::ModuleDraft;
use dft_base::{Name, Range};
use dft_netlist::{Counted, Dir, MAX_INSTANCES, MAX_NETS, MAX_PORTS, NetId};
use dft_netlist_text::{Cause, Declared, Meaning, Shape};
use dft_verilog_tokens::{ReadError, Word, full, refused, taken};

// The place in the header that a name stands for.
fn port_place(meaning: Option<Meaning>) -> Option<usize>
    ensures { result ≡ spec.port_place meaning }
{
    match meaning {
        Some(Meaning::Port(place)) => Some(place),
        _ => None,
    }
}

// Whether two names have the same range.
fn same_range(a: Option<Range>, b: Option<Range>) -> bool
    ensures { result ≡ spec.same_range a b }
{
    match (a, b) {
        (None, None) => true,
        (Some(a), Some(b)) => a.left == b.left && a.right == b.right,
        _ => false,
    }
}

impl<'a> ModuleDraft<'a> {
    // The first of these names that is taken.
    fn first_taken<'n>(&self, names: &'n [Word<'a>]) -> Option<&'n Word<'a>>
        ensures { option_copied result ≡ spec.first_taken self.now names.now }
    {
        names
            .iter()
            .find(|name| self.meaning(name.as_slice()).is_some())
    }

    // The names of the nets that a name of this range is to stand for, unless a bit's is taken.
    fn new_bits(
        &self,
        place: usize,
        word: &'a [u8],
        range: Option<Range>,
    ) -> Result<Vec<Word<'a>>, ReadError>
        requires { IsName word.now }
        ensures names { Checks (λ names. names.items) (new_bits place word.now range self.now) result }
        ensures apart { IfOk result (λ names. AreBitsApart word.now range names.items) }
    {
        match range {
            Some(range) => self.new_vector_bits(place, word, range),
            None => {
                let mut names = Vec::new(self.alloc());
                names.push(Word::read(word))?;
                Ok(names)
            }
        }
    }

    // The names of a vector's bits, unless one is taken.
    fn new_vector_bits(
        &self,
        place: usize,
        word: &[u8],
        range: Range,
    ) -> Result<Vec<Word<'a>>, ReadError>
        requires { IsName word.now }
        ensures names { Checks (λ names. names.items) (new_bits place word.now (Some range) self.now) result }
        ensures apart { IfOk result (λ names. AreBitsApart word.now (Some range) names.items) }
    {
        let names = bit_names(self.alloc(), word, range)?;
        match self.first_taken(&names) {
            Some(name) => Err(taken(self.alloc(), place, name.as_slice())),
            None => Ok(names),
        }
    }

    // Whether there is room for so many nets more.
    fn has_room_for_nets(&self, more: usize) -> bool
        ensures { result ≡ not (nat_lt MAX_NETS (length self.now.nets + more)) }
    {
        more <= MAX_NETS - self.net_count()
    }

    // The nets of a name that comes next.
    pub(crate) fn next_shape(&self, range: Option<Range>) -> Shape
        ensures { result ≡ spec.next_shape self.now range }
    {
        Shape {
            range,
            first: NetId(self.net_count() as u32),
        }
    }

    // A name that is free stands for one net, of this name.
    fn declare_scalar(&mut self, place: usize, word: &'a [u8]) -> Result<(), ReadError>
        requires name { IsName word.now }
        requires free { spec.meaning_of self.old word.now ≡ None }
        ensures { Checks (λ _. self.new) (spec.declare_nets place word.now None self.old) result }
    {
        if !self.has_room_for_nets(1) {
            return Err(full(place, Counted::Nets));
        }
        let shape = self.next_shape(None);
        self.add_net(word)?;
        self.take(word, Meaning::Nets(shape))?;
        Ok(())
    }

    // A name that is free stands for new nets.
    pub(crate) fn declare_free(
        &mut self,
        place: usize,
        word: &'a [u8],
        range: Option<Range>,
    ) -> Result<(), ReadError>
        requires name { IsName word.now }
        requires free { spec.meaning_of self.old word.now ≡ None }
        ensures { Checks (λ _. self.new) (spec.declare_nets place word.now range self.old) result }
    {
        match range {
            Some(_) => self.declare_bits(place, word, range),
            None => self.declare_scalar(place, word),
        }
    }

    // A name that is free stands for the nets of its bits.
    fn declare_bits(
        &mut self,
        place: usize,
        word: &'a [u8],
        range: Option<Range>,
    ) -> Result<(), ReadError>
        requires name { IsName word.now }
        requires free { spec.meaning_of self.old word.now ≡ None }
        ensures { Checks (λ _. self.new) (spec.declare_nets place word.now range self.old) result }
    {
        let names = self.new_bits(place, word, range)?;
        if !self.has_room_for_nets(names.len()) {
            return Err(full(place, Counted::Nets));
        }
        let shape = self.next_shape(range);
        let first = self.net_count();
        self.add_nets(names)?;
        self.take(word, Meaning::Nets(shape))?;
        self.take_bits(range, first)?;
        Ok(())
    }

    /// Adds a name to a header without directions. Refused where it is taken, or where there is no room for a port.
    pub fn announce(&mut self, place: usize, word: &'a [u8]) -> Result<(), ReadError>
        requires { IsName word.now }
        ensures { Checks (λ _. self.new) (spec.announce place word.now self.old) result }
    {
        if self.meaning(word).is_some() {
            return Err(taken(self.alloc(), place, word));
        }
        if self.port_count() >= MAX_PORTS {
            return Err(full(place, Counted::Ports));
        }
        let name = Name::from_slice(self.alloc(), word)?;
        self.take(word, Meaning::Port(self.port_count()))?;
        self.add_port(HeaderPort::new(name, None))?;
        Ok(())
    }

    // Gives the port at this place of the header a direction and a range.
    fn declare_at(
        &mut self,
        place: usize,
        word: &'a [u8],
        dir: Dir,
        range: Option<Range>,
        port: usize,
    ) -> Result<(), ReadError>
        requires { IsName word.now }
        ensures { Checks (λ _. self.new) (spec.declare_at place word.now dir range port self.old) result }
    {
        let names = self.new_bits(place, word, range)?;
        if !self.has_room_for_nets(names.len()) {
            return Err(full(place, Counted::Nets));
        }
        let declared = Declared {
            dir,
            shape: self.next_shape(range),
            repeated: false,
        };
        let first = self.net_count();
        let name = Name::from_slice(self.alloc(), word)?;
        self.add_nets(names)?;
        self.set_port(port, HeaderPort::new(name, Some(declared)));
        self.take_bits(range, first)?;
        Ok(())
    }

    /// Declares a name of the header. Refused where it is none, or was declared before, where the name of one of its bits
    /// is taken, or where there is no room for its nets.
    pub fn declare_port(
        &mut self,
        place: usize,
        word: &'a [u8],
        dir: Dir,
        range: Option<Range>,
    ) -> Result<(), ReadError>
        requires { IsName word.now }
        ensures { Checks (λ _. self.new) (spec.declare_port place word.now dir range self.old) result }
    {
        match port_place(self.meaning(word)) {
            None => Err(refused(place, Cause::Token)),
            Some(port) => {
                if self.declared(port).is_some() {
                    return Err(taken(self.alloc(), place, word));
                }
                self.declare_at(place, word, dir, range, port)
            }
        }
    }

    /// Adds a port to a header with directions. Refused where its name is taken or the name of one of its bits, or where
    /// there is no room for the port or its nets.
    pub fn declare_new_port(
        &mut self,
        place: usize,
        word: &'a [u8],
        dir: Dir,
        range: Option<Range>,
    ) -> Result<(), ReadError>
        requires { IsName word.now }
        ensures { Checks (λ _. self.new) (spec.declare_new_port place word.now dir range self.old) result }
    {
        if self.meaning(word).is_some() {
            return Err(taken(self.alloc(), place, word));
        }
        let names = self.new_bits(place, word, range)?;
        let port = self.port_count();
        if port >= MAX_PORTS {
            return Err(full(place, Counted::Ports));
        }
        if !self.has_room_for_nets(names.len()) {
            return Err(full(place, Counted::Nets));
        }
        let declared = Declared {
            dir,
            shape: self.next_shape(range),
            repeated: false,
        };
        let first = self.net_count();
        let name = Name::from_slice(self.alloc(), word)?;
        self.add_nets(names)?;
        self.take(word, Meaning::Port(port))?;
        self.add_port(HeaderPort::new(name, Some(declared)))?;
        self.take_bits(range, first)?;
        Ok(())
    }

    // A `wire` repeats a port. Refused where the port was not declared with this range, or was repeated before.
    fn repeat_port(
        &mut self,
        place: usize,
        word: &[u8],
        range: Option<Range>,
        port: usize,
    ) -> Result<(), ReadError>
        requires { IsName word.now }
        ensures { Checks (λ _. self.new) (spec.repeat_port place word.now range self.old port (spec.declared_at self.old port)) result }
    {
        match self.declared(port) {
            Some(declared) if !declared.repeated && same_range(declared.shape.range, range) => {
                let repeated = Declared {
                    dir: declared.dir,
                    shape: declared.shape,
                    repeated: true,
                };
                let name = Name::from_slice(self.alloc(), word)?;
                self.set_port(port, HeaderPort::new(name, Some(repeated)));
                Ok(())
            }
            _ => Err(taken(self.alloc(), place, word)),
        }
    }

    /// Declares a wire, or repeats a port.
    pub fn declare_wire(
        &mut self,
        place: usize,
        word: &'a [u8],
        range: Option<Range>,
    ) -> Result<(), ReadError>
        requires { IsName word.now }
        ensures { Checks (λ _. self.new) (spec.declare_wire place word.now range self.old) result }
    {
        match range {
            None if self.has_room_for_nets(1) => self.declare_lone_wire(place, word),
            _ => self.declare_any_wire(place, word, range),
        }
    }

    // Declares a wire without a range, for whose net there is room, or repeats a port. Its name is looked up once.
    fn declare_lone_wire(&mut self, place: usize, word: &'a [u8]) -> Result<(), ReadError>
        requires name { IsName word.now }
        requires room { length self.old.nets < MAX_NETS }
        ensures { Checks (λ _. self.new) (spec.declare_wire place word.now None self.old) result }
    {
        match self.put_net(word)? {
            None => Ok(()),
            Some(Meaning::Port(port)) => self.repeat_port(place, word, None, port),
            Some(_) => Err(taken(self.alloc(), place, word)),
        }
    }

    // Declares a wire with or without a range, or repeats a port.
    fn declare_any_wire(
        &mut self,
        place: usize,
        word: &'a [u8],
        range: Option<Range>,
    ) -> Result<(), ReadError>
        requires { IsName word.now }
        ensures { Checks (λ _. self.new) (spec.declare_wire place word.now range self.old) result }
    {
        let meaning = self.meaning(word);
        match port_place(meaning) {
            Some(port) => self.repeat_port(place, word, range, port),
            None => {
                if meaning.is_some() {
                    return Err(taken(self.alloc(), place, word));
                }
                self.declare_free(place, word, range)
            }
        }
    }

    /// Takes an instance's name. Refused where it is taken, or where there is no room for the instance.
    pub fn name_instance(&mut self, place: usize, word: &'a [u8]) -> Result<(), ReadError>
        requires { IsName word.now }
        ensures { Checks (λ _. self.new) (spec.name_instance place word.now self.old) result }
    {
        if self.instance_count() >= MAX_INSTANCES {
            return self.refuse_instance(place, word);
        }
        match self.put(word, Meaning::Instance)? {
            None => Ok(()),
            Some(_) => Err(taken(self.alloc(), place, word)),
        }
    }

    /// Takes the name of an instance of a module. Refused where it is taken.
    pub fn name_sub(&mut self, place: usize, word: &'a [u8]) -> Result<(), ReadError>
        requires { IsName word.now }
        ensures { Checks (λ _. self.new) (name_sub place word.now self.old) result }
    {
        match self.put(word, Meaning::Instance)? {
            None => Ok(()),
            Some(_) => Err(taken(self.alloc(), place, word)),
        }
    }

    // Refuses an instance for which there is no room: at its name, if that is taken.
    fn refuse_instance(&self, place: usize, word: &[u8]) -> Result<(), ReadError>
        requires name { IsName word.now }
        requires full { MAX_INSTANCES ≤ length self.now.instances }
        ensures { Checks (λ _. self.now) (spec.name_instance place word.now self.now) result }
    {
        if self.meaning(word).is_some() {
            return Err(taken(self.alloc(), place, word));
        }
        Err(full(place, Counted::Instances))
    }

    /// Tests that there is room for an instance.
    pub fn room_for_instance(&self, place: usize) -> Result<(), ReadError>
        ensures { Checks (λ _. self.now) (spec.room_for_instance place self.now) result }
    {
        if self.instance_count() >= MAX_INSTANCES {
            return Err(full(place, Counted::Instances));
        }
        Ok(())
    }
}
