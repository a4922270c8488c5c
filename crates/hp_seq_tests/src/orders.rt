// Tests of the evaluator under orders of the rows of joins and aggregates, of its ticks, and on scripts that do not fit.

use crate::evaluating::{meant, parsed};
use hp_meaning::seq::{SeqEnd, SeqStatus, Stop};
use hp_script::tree::Script;
use hp_word::order::{Order, Orders, RowPlace};
use hp_word::place::NoMemory;
use hp_word::sequence::Sequence;
use std::alloc::Global;

/// A join and an aggregate.
const JOINED: &str = "l = DataFrame(id = fill(1, 2), a = collect(1:2))
r = DataFrame(id = fill(1, 2), b = collect(5:6))
j = join(l, r, :id)
println(j.a)
println(j.b)
g = aggregate(j, :b, n = count())
println(g.b)
";

/// Behind orders, with ` / ` between them, stand the lines that are written under them, and the numbers of the bad ones.
/// A `-` stands for none.
const OF_JOINED: &str = "- => [1, 1, 2, 2] / [5, 6, 5, 6] / [5, 6] => -
1 1:1 1:2 2:1 2:2 => [1, 1, 2, 2] / [5, 6, 5, 6] / [5, 6] => -
1 2:2 1:1 1:2 2:1 => [2, 1, 1, 2] / [6, 5, 6, 5] / [6, 5] => -
2 2:0 1:0 => [1, 1, 2, 2] / [5, 6, 5, 6] / [6, 5] => -
2 2:0 1:0 / 1 2:2 1:1 1:2 2:1 => [2, 1, 1, 2] / [6, 5, 6, 5] / [5, 6] => -
1 2:2 1:1 1:2 2:1 2:2 => [1, 1, 2, 2] / [5, 6, 5, 6] / [5, 6] => 1
1 2:2 2:2 1:2 2:1 => [1, 1, 2, 2] / [5, 6, 5, 6] / [5, 6] => 1
1 2:2 1:2 2:1 => [1, 1, 2, 2] / [5, 6, 5, 6] / [5, 6] => 1
1 2:2 1:1 1:2 2:1 2:3 => [1, 1, 2, 2] / [5, 6, 5, 6] / [5, 6] => 1
1 2:2 1:1 1:2 3:1 => [1, 1, 2, 2] / [5, 6, 5, 6] / [5, 6] => 1
1 2:2 1:1 1:2 2:0 => [1, 1, 2, 2] / [5, 6, 5, 6] / [5, 6] => 1
1 => [1, 1, 2, 2] / [5, 6, 5, 6] / [5, 6] => 1
2 2:0 1:0 2:0 => [1, 1, 2, 2] / [5, 6, 5, 6] / [5, 6] => 2
2 2:0 => [1, 1, 2, 2] / [5, 6, 5, 6] / [5, 6] => 2
2 2:0 1:1 => [1, 1, 2, 2] / [5, 6, 5, 6] / [5, 6] => 2
2 3:0 1:0 => [1, 1, 2, 2] / [5, 6, 5, 6] / [5, 6] => 2
2 => [1, 1, 2, 2] / [5, 6, 5, 6] / [5, 6] => 2
1 / 2 => [1, 1, 2, 2] / [5, 6, 5, 6] / [5, 6] => 1 2
2 / 1 => [1, 1, 2, 2] / [5, 6, 5, 6] / [5, 6] => 1 2
1 1:1 / 2 2:0 1:0 => [1, 1, 2, 2] / [5, 6, 5, 6] / [6, 5] => 1
1 2:2 2:1 1:2 1:1 / 2 => [2, 2, 1, 1] / [6, 5, 6, 5] / [6, 5] => 2
0 2:0 / 3 2:2 => [1, 1, 2, 2] / [5, 6, 5, 6] / [5, 6] => -
1 2:2 2:1 1:2 1:1 / 1 1:1 => [2, 2, 1, 1] / [6, 5, 6, 5] / [6, 5] => -
1 1:1 / 1 2:2 2:1 1:2 1:1 => [1, 1, 2, 2] / [5, 6, 5, 6] / [5, 6] => 1
";

/// The same join three times, in a loop, and one of no pair.
const LOOPED: &str = "l = DataFrame(id = fill(1, 1), a = fill(7, 1))
r = DataFrame(id = fill(1, 2), b = collect(5:6))
i = 0
while i < 3
j = join(l, r, :id)
println(j.b)
i = i + 1
end
println(nrow(join(l, filter(r, :id .> 1), :id)))
";

/// What `LOOPED` writes under orders.
const OF_LOOPED: &str = "- => [5, 6] / [5, 6] / [5, 6] / 0 => -
2 1:2 1:1 => [5, 6] / [6, 5] / [5, 6] / 0 => -
3 1:2 1:1 / 1 1:2 1:1 / 4 => [6, 5] / [5, 6] / [6, 5] / 0 => -
2 1:2 / 4 1:1 / 3 1:2 1:1 => [5, 6] / [5, 6] / [6, 5] / 0 => 2 4
";

/// Behind a script, with ` / ` between its lines, stand the lines that it writes and its ticks.
const TICKS: &str = "# => 0
i = 0 / while i < 2 / i = i + 1 / end / println(i) => 24
x = map(p -> p + 1, fill(1, 2)) => 5
x = stencil(p -> p[-1] * 2, collect(1:3)) => 5
println(false && true) => 3
println(true && true) => 4
println(true || div(1, 0) == 0) => 3
d = DataFrame(k = fill(1, 2)) => 5
d = DataFrame(k = fill(1, 2)) / write_csv(aggregate(d, :k, n = count())) => 8
d = DataFrame(k = fill(1, 2)) / e = filter(sort(d, :k), :k .> 0) => 12
d = DataFrame(k = fill(1, 2)) / println(length(d.k)) => 8
d = DataFrame(k = fill(1, 2)) / e = join(d, d, :k) => 9
if true / x = -1 / else / x = 2 / end => 5
while false / println(1) / end => 2
";

/// Scripts that do not fit.
const WRONG: &str = "println(y)
x = 1 .+ 2
x = foo(1)
x = fill(1)
d = DataFrame(a = fill(1, 2)) / println(d.b)
x = true + 1
x = transpose(1)
if 1 / end
println(1) / while fill(true, 1) / end
";

/// The script whose lines stand in a text with ` / ` between them.
fn script_of(alloc: Global, text: &str) -> Option<Script> {
    let mut source = Vec::new(alloc);
    for line in text.split(" / ") {
        source.extend_from_slice(line.as_bytes()).ok()?;
        source.push(b'\n').ok()?;
    }
    parsed(alloc, &source)
}

/// The order of a text: its number and its places.
fn order(alloc: Global, text: &str) -> Option<Order> {
    let mut words = text.split_whitespace();
    let number = words.next()?.parse::<u64>().ok()?;
    let mut places = Sequence::new(alloc);
    for word in words {
        let (left, right) = word.split_once(":")?;
        let left = left.parse::<u64>().ok()?;
        let right = right.parse::<u64>().ok()?;
        places.push(RowPlace { left, right }).ok()?;
    }
    Some(Order { number, places })
}

/// The orders of a text, with ` / ` between them.
fn orders(alloc: Global, text: &str) -> Option<Orders> {
    let mut list = Sequence::new(alloc);
    for one in text.split(" / ") {
        if one != "-" {
            list.push(order(alloc, one)?).ok()?;
        }
    }
    Some(Orders { list })
}

/// What was written, with ` / ` between the lines, and the numbers of the bad orders.
fn told(alloc: Global, end: &SeqEnd) -> Result<String, NoMemory> {
    let out = String::from_utf8_lossy(alloc, end.out.as_slice())?;
    let mut told = String::new(alloc);
    for line in out.lines() {
        if !told.is_empty() {
            told.push_str(" / ")?;
        }
        told.push_str(line)?;
    }
    told.push_str(" =>")?;
    if end.bad.is_empty() {
        told.push_str(" -")?;
    }
    for number in end.bad.as_slice() {
        let next = format!(in alloc; " {number}")?;
        told.push_str(&next)?;
    }
    Ok(told)
}

/// The first line of a text whose orders, given to a script, lead to something else, and what they lead to.
fn first_other(alloc: Global, source: &str, text: &str) -> Option<Option<String>> {
    let script = parsed(alloc, source.as_bytes())?;
    for line in text.lines() {
        let (given, wanted) = line.split_once(" => ")?;
        let end = meant(alloc, &script, &orders(alloc, given)?, 100).ok()?;
        let told = told(alloc, &end).ok()?;
        if end.status != SeqStatus::Done || told.as_str() != wanted {
            return Some(Some(format!(in alloc; "{given} => {told}").ok()?));
        }
    }
    Some(None)
}

#[test]
fn orders_are_taken(rt: HostRuntime) {
    assert_eq!(rt; first_other(rt.alloc(), JOINED, OF_JOINED), Some(None));
}

#[test]
fn orders_are_numbered(rt: HostRuntime) {
    assert_eq!(rt; first_other(rt.alloc(), LOOPED, OF_LOOPED), Some(None));
}

/// Whether the script of a line has the line's ticks.
fn has_ticks(alloc: Global, line: &str) -> Option<bool> {
    let (text, wanted) = line.split_once(" => ")?;
    let wanted = wanted.parse::<u64>().ok()?;
    let script = script_of(alloc, text)?;
    let end = meant(alloc, &script, &orders(alloc, "-")?, 100).ok()?;
    Some(end.ticks == wanted)
}

#[test]
fn ticks_are_counted(rt: HostRuntime) {
    let alloc = rt.alloc();
    for line in TICKS.lines() {
        assert_eq!(rt; has_ticks(alloc, line), Some(true), "{line}");
    }
}

/// Whether the script of a text is of no meaning, since it does not fit.
fn is_wrong(alloc: Global, text: &str) -> Option<bool> {
    let script = script_of(alloc, text)?;
    let none = orders(alloc, "-")?;
    Some(matches!(meant(alloc, &script, &none, 100), Err(Stop::Wrong)))
}

#[test]
fn types_are_wrong(rt: HostRuntime) {
    let alloc = rt.alloc();
    for text in WRONG.lines() {
        assert_eq!(rt; is_wrong(alloc, text), Some(true), "{text}");
    }
}
