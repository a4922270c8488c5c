// Where a rank goes from a Jump.

ghost use Rattle.std.specs.Prelude.{◌≡◌, ◌+◌, ◌<◌, ◌^◌};
ghost use Rattle.hp_spmd.specs.Local.{jumped, next_place};
ghost use Rattle.hp_spmd.specs.Next.{Goes, Tells};

use crate::local::Local;
use crate::local::words::word_at;
use crate::store::Store;
use hp_word::sequence::Sequence;

/// The place to which a rank with these words goes from the instruction `here`: the target, but where `unless` names a
/// word that is not 0 the next one.
pub fn next_place(target: u32, unless: Option<u32>, words: &Sequence<i64>, here: u32) -> u32
    requires { here + 1 < 2 ^ 32 }
    ensures { result ≡ next_place target unless words.now here }
{
    match unless {
        None => target,
        Some(word) => {
            if word_at(words, word) == 0 {
                target
            } else {
                here + 1
            }
        }
    }
}

/// Goes to the target, or moves on.
#[tactic(auto, unfolding(crate::specs::Local::jumped))]
pub fn do_jump(store: &mut Store, target: u32, unless: Option<u32>) -> Local
    requires { store.old.position + 1 < 2 ^ 32 }
    ensures told { Tells (Goes (jumped target unless store.old)) result store.old store.new }
    ensures number { store.new.number ≡ store.old.number }
    ensures ranks { store.new.ranks ≡ store.old.ranks }
{
    store.position = next_place(target, unless, &store.words, store.position);
    Local::Moved
}
