// Ascending numbers, each once.
ghost use Rattle.std.specs.Prelude.{◌≡◌, ◌<◌};
ghost use Rattle.arrayvec.specs.ArrayVec.{array_vec_len};
ghost use Rattle.plans.specs.Limits.{Ascending, insert};

use arrayvec::ArrayVec;

// Inserts `x` at its place among ascending numbers, unless it is one of them.
pub fn insert<const N: usize>(list: &mut ArrayVec<u32, N>, x: u32)
    requires room { array_vec_len list.old < N }
    requires ascending { Ascending list.old.items }
    ensures { list.new.items ≡ insert x list.old.items }
{
    match list.as_slice().binary_search(&x) {
        Ok(_found) => {}
        Err(place) => list.insert(place, x),
    }
}
