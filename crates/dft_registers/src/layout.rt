//! Where cells lie: shift registers of those that follow each other, and all others by themselves.

ghost use Rattle.std.specs.Prelude.{◌≡◌, ℕ, ◌<◌, length, true, IfOk, IfSome};
ghost use Rattle.dft_registers.specs.Layout.{IsLaid, place_at, cells_at};

use crate::registers::Register;
use std::alloc::{AllocError, Global};
use std::marker::Model;

// The fewest cells that make a shift register.
const FEWEST: usize = 8;

/// Where a cell lies: its register, and how many cells are before it there. Cells that rest lie by themselves: they are
/// told to be at the beginning of the first register, which has no cell.
#[derive(Clone, Copy)]
pub struct Place {
    pub register: u32,
    pub index: u32,
}

/// Where cells lie: those that follow each other in registers, and all others by themselves. The first register has no
/// cell: it is for those that rest.
pub struct Layout {
    places: Vec<Place>,
    registers: Vec<Register>,
}

// One call for all fields, so that the proof of what owns a value stays short.
impl Drop for Layout {
    fn drop(self) {
        let Layout {
            places: _,
            registers: _,
        } = self;
    }
}

impl Model for Layout {
    ghost use Rattle.dft_registers.specs.Layout as spec;

    ghost Value = { spec.Layout };

    ghost view = { λ l. record { places = l.places.items; registers = l.registers.items } };

    ghost invariant = { λ l. spec.IsLaid (record { places = l.places.items; registers = l.registers.items }) };
}

// A place, if numbers of 32 bits tell it.
fn place_of(register: usize, index: usize) -> Option<Place>
    ensures { IfSome result (λ place. (place.register ≡ register) × (place.index ≡ index)) }
{
    match (u32::try_from(register), u32::try_from(index)) {
        (Ok(register), Ok(index)) => Some(Place { register, index }),
        _ => None,
    }
}

// The cell that follows one, if there is one.
fn follower(followers: &[Option<usize>], cell: usize) -> Option<usize> {
    match followers.get(cell) {
        Some(follower) => *follower,
        None => None,
    }
}

// Notes that a cell follows one, if it is the first that does.
fn note(followers: &mut [Option<usize>], before: usize, cell: usize)
    ensures { length followers.new ≡ length followers.old }
{
    if before < followers.len() && followers[before].is_none() {
        followers[before] = Some(cell);
    }
}

// Of each cell the first that follows it.
fn find_followers(alloc: Global, before: &[Option<u32>]) -> Result<Vec<Option<usize>>, AllocError> {
    let mut followers = vec![in alloc; None; before.len()]?;
    for (cell, other) in before.iter().enumerate() {
        if let Some(other) = other {
            note(&mut followers, *other as usize, cell);
        }
    }
    Ok(followers)
}

// Whether no cell has this one as its follower.
fn is_head(before: Option<u32>, followers: &[Option<usize>], cell: usize) -> bool {
    match before {
        Some(other) => match follower(followers, other as usize) {
            Some(next) => next != cell,
            None => true,
        },
        None => true,
    }
}

// Whether enough cells follow one behind the other, from this one on, to make a register.
fn is_long(followers: &[Option<usize>], head: usize) -> bool {
    let mut cell = head;
    for _ in 1..FEWEST {
        match follower(followers, cell) {
            Some(next) => cell = next,
            None => return false,
        }
    }
    true
}

impl Layout {
    // All cells rest.
    fn rest(alloc: Global, count: usize) -> Result<Layout, AllocError>
        ensures { IfOk result (λ layout. length layout.places ≡ count) }
    {
        let resting = Place {
            register: 0,
            index: 0,
        };
        let places = vec![in alloc; resting; count]?;
        let mut registers = Vec::new(alloc);
        registers.push(Register::new(alloc))?;
        Ok(Layout { places, registers })
    }

    // Opens a register, which has no cell yet.
    fn open(&mut self, alloc: Global) -> Result<(), AllocError>
        ensures { length self.new.places ≡ length self.old.places }
    {
        self.registers.push(Register::new(alloc))?;
        Ok(())
    }

    // Whether this is a cell that rests, and a register is open.
    fn may_add(&self, cell: usize) -> bool
        ensures { result ≡ true → (cell < length self.now.places) × ((1 < length self.now.registers) × ((place_at self.now.places cell).register ≡ 0)) }
    {
        match self.places.get(cell) {
            Some(place) => place.register == 0 && self.registers.len() > 1,
            None => false,
        }
    }

    // Takes a cell to the end of the last register, if it is one that rests. Where a place's numbers would be too great, it
    // rests on.
    fn add(&mut self, cell: usize) -> Result<(), AllocError>
        ensures { length self.new.places ≡ length self.old.places }
    {
        if !self.may_add(cell) {
            return Ok(());
        }
        let last = self.registers.len() - 1;
        let index = self.register(last).len();
        let Some(place) = place_of(last, index) else {
            return Ok(());
        };
        let register = &mut self.registers[last];
        register.push(cell)?;
        self.places[cell] = place;
        Ok(())
    }

    // Takes a cell and those behind it to a register.
    fn gather(
        &mut self,
        alloc: Global,
        followers: &[Option<usize>],
        head: usize,
    ) -> Result<(), AllocError>
        ensures { length self.new.places ≡ length self.old.places }
    {
        self.open(alloc)?;
        let mut next = Some(head);
        for _ in 0..followers.len() {
            match next {
                Some(cell) => {
                    self.add(cell)?;
                    next = follower(followers, cell);
                }
                None => return Ok(()),
            }
        }
        Ok(())
    }

    /// Where cells lie, by the cell before each, if there is one: those that follow one behind the other, if they are not
    /// too few, are a register. An error is want of memory.
    pub fn of_chains(alloc: Global, before: &[Option<u32>]) -> Result<Layout, AllocError>
        ensures { IfOk result (λ layout. length layout.places ≡ length before.now) }
    {
        let followers = find_followers(alloc, before)?;
        let mut layout = Layout::rest(alloc, before.len())?;
        for (cell, other) in before.iter().enumerate() {
            if is_head(*other, &followers, cell) && is_long(&followers, cell) {
                layout.gather(alloc, &followers, cell)?;
            }
        }
        Ok(layout)
    }

    /// How many cells there are.
    pub fn count(&self) -> usize
        ensures count { result ≡ length self.now.places }
        ensures laid { IsLaid self.now }
    {
        self.places.len()
    }

    /// How many registers there are.
    pub fn registers(&self) -> usize
        ensures { result ≡ length self.now.registers }
    {
        self.registers.len()
    }

    /// The cells of a register, in their order; the first has none, and past the end there is none.
    pub fn register(&self, number: usize) -> &[usize]
        ensures { result.now ≡ cells_at self.now.registers number }
    {
        match self.registers.get(number) {
            Some(register) => register.as_slice(),
            None => &[],
        }
    }

    /// The place of a cell.
    pub fn place(&self, cell: usize) -> Place
        requires { cell < length self.now.places }
        ensures { result ≡ place_at self.now.places cell }
    {
        self.places[cell]
    }
}
