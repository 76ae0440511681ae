// The items of a list written over the front of another.
ghost use Rattle.std.specs.Prelude.{◌≡◌, length, take};
ghost use Rattle.numbers.specs.Lists.{written};

// Copies as many items as both lists have. No `copy_from_slice`: it calls memmove, which an archive for C would ask of
// its user.
pub fn copy<T: Copy>(from: &[T], to: &mut [T])
    ensures { to.new ≡ written (take (length to.old) from.now) to.old }
{
    for i in 0..to.len().min(from.len()) {
        to[i] = from[i];
    }
}
