// The orders in which joins and aggregates list their rows.

ghost use Rattle.std.specs.Prelude.{◌≡◌, ◌==◌, nat_lt, IfOk, IfErr};
ghost use Rattle.std.specs.List.{list_all};
ghost use Rattle.std.specs.Option.{option_copied};
ghost use Rattle.hp_meaning.specs.HeldValues.{taken_in};
ghost use Rattle.hp_meaning.specs.PlaceCounts.{times_held};
ghost use Rattle.hp_word.specs.RowRules.{is_order, order_named, order_taken};

use crate::places::PlaceCounts;
use crate::seen::Stop;
use hp_word::order::{Order, RowPlace};
use std::alloc::Global;

/// The order that is taken, and whether the one that was given is bad.
#[derive(Clone, Copy)]
pub struct Taken<'a> {
    pub places: &'a [RowPlace],
    pub is_bad: bool,
}

/// Whether each place is counted exactly once.
fn each_once(counts: &PlaceCounts, places: &[RowPlace]) -> bool
    ensures { result ≡ list_all (λ p. times_held counts.now p == 1) places.now }
{
    places.iter().all(|p| counts.times(*p) == 1)
}

/// Whether each place is counted at all.
fn all_stand(counts: &PlaceCounts, places: &[RowPlace]) -> bool
    ensures { result ≡ list_all (λ p. nat_lt 0 (times_held counts.now p)) places.now }
{
    places.iter().all(|p| counts.times(*p) > 0)
}

/// Whether a list has each of these places exactly once and no other.
fn is_order(alloc: Global, plain: &[RowPlace], places: &[RowPlace]) -> Result<bool, Stop>
    ensures ok { IfOk result (λ fits. fits ≡ is_order plain.now places.now) }
    ensures err { IfErr result (λ e. e ≡ Stop.NoMemory) }
{
    let all = PlaceCounts::of(alloc, plain)?;
    let given = PlaceCounts::of(alloc, places)?;
    Ok(each_once(&given, plain) && all_stand(&all, places))
}

/// The first order that is given for this number.
#[tactic(auto, unfolding(hp_word::specs::RowRules::order_named))]
fn order_named(number: u64, orders: &[Order]) -> Option<&Order>
    ensures { option_copied result ≡ order_named number orders.now }
{
    orders.iter().find(|order| order.number == number)
}

/// The order of the join or aggregate with this number: the first that is given for it, where it is well formed, and
/// the plain one otherwise.
#[tactic(auto, unfolding(hp_word::specs::RowRules::order_taken))]
pub fn order_taken<'a>(
    alloc: Global,
    number: u64,
    orders: &'a [Order],
    plain: &'a [RowPlace],
) -> Result<Taken<'a>, Stop>
    ensures ok { IfOk result (λ taken. taken_in taken ≡ order_taken number orders.now plain.now) }
    ensures err { IfErr result (λ e. e ≡ Stop.NoMemory) }
{
    let Some(order) = order_named(number, orders) else {
        return Ok(Taken {
            places: plain,
            is_bad: false,
        });
    };
    if is_order(alloc, plain, order.places.as_slice())? {
        Ok(Taken {
            places: order.places.as_slice(),
            is_bad: false,
        })
    } else {
        Ok(Taken {
            places: plain,
            is_bad: true,
        })
    }
}
