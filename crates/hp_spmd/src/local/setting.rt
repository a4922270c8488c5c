// Setting several items of a list.

ghost use Rattle.std.specs.Prelude.{◌≡◌};
ghost use Rattle.hp_spmd.specs.Setting.{with_all};

use crate::local::words::put;
use hp_word::sequence::Sequence;

/// Puts items in the places of those at these positions, one for one; where there is none, nothing changes.
pub fn put_all<T: Drop>(list: &mut Sequence<T>, to: &[u32], made: Vec<T>)
    ensures { list.new ≡ with_all to.now made.items list.old }
{
    let mut k = 0;
    for item in made {
        if k < to.len() {
            put(list, to[k], item);
            k += 1;
        }
    }
}
