// Parts of a buffer of numbers.
ghost use Rattle.std.specs.Prelude.{◌≡◌, ◌≤◌, ◌++◌, length, drop, replicate};
ghost use Rattle.maths.specs.Parts.{overlaid};

use min_sum::layout::has_room;

// The n numbers from a place on become x, where there are so many.
pub fn fill(w: &mut [i8], from: usize, n: usize, x: i8)
    ensures { w.new ≡ overlaid from (replicate n x) w.old }
{
    if has_room(w.len(), from, n) {
        w[from..from + n].fill(x);
    }
}

// Copies numbers to the front of others. (By an index: `copy_from_slice` calls memmove, which who links the library may not have.)
fn copy_in(w: &mut [i8], xs: &[i8])
    requires { length xs.now ≤ length w.old }
    ensures { w.new ≡ xs.now ++ drop (length xs.now) w.old }
{
    for i in 0..xs.len() {
        w[i] = xs[i];
    }
}

// The numbers from a place on become those of another list, where there is room for them.
pub fn copy(w: &mut [i8], from: usize, xs: &[i8])
    ensures { w.new ≡ overlaid from xs.now w.old }
{
    if has_room(w.len(), from, xs.len()) {
        copy_in(&mut w[from..from + xs.len()], xs);
    }
}
