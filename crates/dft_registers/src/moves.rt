//! How the values of registers move: on by one place, or over to another register.

ghost use Rattle.std.specs.Prelude.{◌≡◌, ℕ, ◌<◌, ◌≤◌, ◌≢◌, ◌+◌, length, map};
ghost use Rattle.dft_registers.specs.Cells as spec;

use crate::registers::Values;
use crate::value::Value;

/// How the values of a register move. What comes in at its beginning is told by none of these.
#[derive(Clone, Copy)]
pub enum Move {
    Stays,
    /// On by one place: each cell takes the value of the one before it.
    Shifts,
    /// Each cell takes the value at its own place in another register.
    Copies(u32),
    /// Each cell takes the value at the place before its own in another register.
    Trails(u32),
}

/// What says how a register moves.
pub trait Way: Copy {
    ghost use Rattle.dft_registers.specs.declared.moves.Move.{Move};

    /// How it moves.
    ghost move_value: { Self → Move };

    /// How it moves.
    fn to_move(self) -> Move
        ensures { result ≡ move_value self };
}

impl Way for Move {
    ghost move_value = { λ way. way };

    fn to_move(self) -> Move {
        self
    }
}

/// It shifts where this is true, and stays elsewhere.
impl Way for bool {
    ghost move_value = { spec.shifts_if };

    fn to_move(self) -> Move {
        if self { Move::Shifts } else { Move::Stays }
    }
}

// How a register moves; past the end it stays.
fn move_of<W: Way>(moves: &[W], number: usize) -> Move
    ensures { result ≡ spec.move_at (map W.move_value moves.now) number }
{
    match moves.get(number) {
        Some(way) => way.to_move(),
        None => Move::Stays,
    }
}

// Takes the first values of one register to another one, from a place on.
fn copy_row<V: Value>(rows: &mut [Values<V>], to: usize, from: usize, start: usize)
    requires live { to < length rows.old }
    requires apart { from ≢ to }
    requires enough { length (spec.row_at rows.old to) ≤ start + length (spec.row_at rows.old from) }
    ensures count { length rows.new ≡ length rows.old }
    ensures others { (r : ℕ) → r ≢ to → spec.row_at rows.new r ≡ spec.row_at rows.old r }
    ensures here { spec.row_at rows.new to ≡ spec.copied_row start (spec.row_at rows.old to) (spec.row_at rows.old from) }
{
    if from >= rows.len() {
        return;
    }
    if from < to {
        let (low, high) = rows.split_at_mut(to);
        let row = &mut high[0];
        row.copy(start, &mut low[from]);
    } else {
        let (low, high) = rows.split_at_mut(from);
        let row = &mut low[to];
        row.copy(start, &mut high[0]);
    }
}

// Moves the values of one register.
fn move_row<V: Value>(way: Move, rows: &mut [Values<V>], number: usize)
    requires live { number < length rows.old }
    requires ready { spec.IsReady rows.old number way }
    ensures count { length rows.new ≡ length rows.old }
    ensures others { (r : ℕ) → r ≢ number → spec.row_at rows.new r ≡ spec.row_at rows.old r }
    ensures here { spec.row_at rows.new number ≡ spec.moved_row rows.old way (spec.row_at rows.old number) }
{
    match way {
        Move::Stays => {}
        Move::Shifts => {
            let row = &mut rows[number];
            row.shift();
        }
        Move::Copies(from) => copy_row(rows, number, from as usize, 0),
        Move::Trails(from) => copy_row(rows, number, from as usize, 1),
    }
}

// Moves the values of all registers.
pub(crate) fn shift_rows<V: Value, W: Way>(moves: &[W], rows: &mut [Values<V>])
    requires { spec.AreSound (map W.move_value moves.now) (λ r. length (spec.row_at rows.old r)) }
    ensures count { length rows.new ≡ length rows.old }
    ensures each { (r : ℕ) → spec.row_at rows.new r ≡ spec.moved_row rows.old (spec.move_at (map W.move_value moves.now) r) (spec.row_at rows.old r) }
{
    for number in 0..rows.len() {
        move_row(move_of(moves, number), rows, number);
    }
}
