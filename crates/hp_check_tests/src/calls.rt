// Tests of the rules by texts of scripts: columns and calls.

use crate::checking::hold;
use std::test::Fail;

/// Columns of frames, and the calls that name them.
const COLUMNS: &str = "d = DataFrame(a = fill(1, 2))
println(d.b)
#! 2:9: UnknownColumn

d = 1
println(d.b)
#! 2:9: WrongType

println(d.b)
#! 1:9: UnknownName

d = DataFrame(a = fill(1, 2), a = fill(1, 2))
#! 1:31: DoubleColumn

d = DataFrame(a = fill(1, 2), a = y)
#! 1:35: UnknownName

d = DataFrame(a = 1)
#! 1:5: WrongType

d = DataFrame(fill(1, 2))
#! 1:5: WrongType

d = read_csv(\"t\", :a, :b, :a)
#! 1:27: DoubleColumn

d = read_csv(:a, :b)
#! 1:14: WrongType

d = read_csv(\"t\", \"u\")
#! 1:19: WrongType

d = read_csv(1, :b)
#! 1:5: WrongType

d = read_csv(\"t\", 1)
#! 1:5: WrongType

d = read_csv(\"t\")
#! 1:5: WrongCount

d = DataFrame(a = fill(1, 2))
e = filter(d, :b .> 1)
#! 2:15: UnknownColumn

d = DataFrame(a = fill(1, 2))
e = filter(d, :a)
#! 2:5: WrongType

d = filter(1, :a .> 1)
#! 1:15: WrongType

d = DataFrame(a = fill(1, 2))
e = filter(d, fill(nrow(filter(DataFrame(b = fill(1, 2)), :a .> 1)) > 1, 2))
#! 2:59: UnknownColumn

d = DataFrame(a = fill(1, 2))
e = filter(d, fill(nrow(filter(DataFrame(b = fill(1, 2)), :b .> 1)) > 1, 2) .& (:a .> 1))
#> ok

d = DataFrame(a = fill(1, 2))
e = filter(d, map(p -> p > :a[1], :a))
#! 2:28: WrongType

v = fill(1, 3)
b = fill(true, 3)
d = DataFrame(a = v, c = v)
x = filter(d, m = :a .> 1)
#! 4:15: WrongType

v = fill(1, 3)
b = fill(true, 3)
d = DataFrame(a = v, c = v)
x = filter(d, m = :q .> 1)
#! 4:19: UnknownColumn

v = fill(1, 3)
b = fill(true, 3)
d = DataFrame(a = v, c = v)
x = filter(d, m = b .& (:a .> :q))
#! 4:31: UnknownColumn

v = fill(1, 3)
b = fill(true, 3)
d = DataFrame(a = v, c = v)
x = filter(d, m = sum(:a))
#! 4:15: WrongType

v = fill(1, 3)
b = fill(true, 3)
d = DataFrame(a = v, c = v)
x = filter(d, filter(v, m = :a))
#! 4:29: WrongType

d = DataFrame(a = fill(1, 2))
x = filter(d, filter(d, m = :a), :a)
#! 2:5: WrongCount

d = DataFrame(a = fill(1, 2))
x = filter(d, fill(1, m = sum(:a)))
#! 2:23: WrongType

d = DataFrame(a = fill(1, 2))
x = filter(d, m = map(p -> :a, :a))
#! 2:28: WrongType

d = DataFrame(a = fill(1, 2))
x = filter(m = :a, d)
#! 2:16: WrongType

d = DataFrame(a = fill(1, 2))
x = filter(m = 1, d)
#! 2:12: WrongType

d = DataFrame(a = fill(1, 2))
x = filter(d, 1:sum(:b))
#! 2:5: WrongType

l = DataFrame(k = fill(1, 2), a = fill(1, 2))
r = DataFrame(k = fill(1, 2), a = fill(1, 2))
j = join(l, r, :k)
#! 3:5: DoubleColumn

l = DataFrame(k = fill(1, 2), a = fill(1, 2))
r = DataFrame(k = fill(1, 2), b = fill(1, 2))
j = join(l, r, :k)
println(j.a .+ j.b .+ j.k)
#> ok

l = DataFrame(k = fill(1, 2), a = fill(1, 2))
r = DataFrame(b = fill(1, 2))
j = join(l, r, :k)
#! 3:16: UnknownColumn

l = DataFrame(k = fill(1, 2))
j = join(l, 1, :k)
#! 2:5: WrongType

l = DataFrame(k = fill(1, 2))
j = join(l, l, 1)
#! 2:5: WrongType

l = DataFrame(k = fill(1, 2))
j = join(l, l, \"k\")
#! 2:16: WrongType

d = DataFrame(k = fill(1, 2))
a = aggregate(d, :k, k = count())
#! 2:22: DoubleColumn

d = DataFrame(k = fill(1, 2))
a = aggregate(d, :k, s = sum(:b))
#! 2:30: UnknownColumn

d = DataFrame(k = fill(1, 2))
a = aggregate(d, :c, s = sum(:k))
#! 2:18: UnknownColumn

d = DataFrame(k = fill(1, 2))
a = aggregate(d, :k, s = sum(d.k))
#! 2:5: WrongType

d = DataFrame(k = fill(1, 2))
a = aggregate(d, :k, s = sum(y))
#! 2:30: UnknownName

d = DataFrame(k = fill(1, 2))
a = aggregate(d, :k)
#! 2:5: WrongCount

d = DataFrame(k = fill(1, 2))
a = sort(d, :b)
#! 2:13: UnknownColumn

a = sort(1, :b)
#! 1:5: WrongType

d = filter(1, fill(true, 2))
#! 1:5: WrongType

l = DataFrame(k = fill(1, 2))
j = join(1, l, :k)
#! 2:5: WrongType

a = aggregate(1, :k, n = count())
#! 1:5: WrongType
";

/// Functions, the counts and forms of their arguments, lambdas; and what is refused before the rules.
const CALLS: &str = "x = foo(1)
#! 1:5: UnknownCall

x = foo(y)
#! 1:5: UnknownCall

x = sum.(fill(1, 2))
#! 1:5: UnknownCall

x = fill(1)
#! 1:5: WrongCount

x = fill(y)
#! 1:5: WrongCount

x = fill(y, z)
#! 1:10: UnknownName

x = fill(1, n = 2)
#! 1:13: WrongType

x = fill(1, n = y)
#! 1:17: UnknownName

x = fill(p -> y, z)
#! 1:5: WrongType

x = map(p -> y, z)
#! 1:17: UnknownName

x = map(p -> y, 1)
#! 1:5: WrongType

x = map(1, fill(1, 2))
#! 1:5: WrongType

x = map(p -> p, fill(1, 2))
x = fill(1, 3)
#> ok

x = map(p -> fill(p, 2), fill(1, 2))
#! 1:14: WrongType

a = fill(1, 2)
x = map(p -> a, a)
#! 2:14: WrongType

a = fill(1, 2)
x = map(p -> p[1], a)
#! 2:15: WrongType

a = fill(1, 2)
x = map(p -> p.c, a)
#! 2:14: WrongType

a = fill(1, 2)
x = map(p -> \"a\", a)
#! 2:14: WrongType

x = stencil(p -> p[65], fill(1, 3))
#! 1:19: ReachTooWide

x = stencil(p -> p[-65], fill(1, 3))
#! 1:19: ReachTooWide

x = stencil(p -> p[-64] + p[64], fill(1, 3))
#> ok

x = stencil(p -> p, fill(1, 3))
#! 1:18: WrongType

x = stencil(p -> p[1 + 1], fill(1, 3))
#! 1:18: WrongType

x = stencil(p -> p[0] > 1, fill(1, 3))
#! 1:5: WrongType

x = stencil(p -> p[0], fill(true, 3))
#! 1:5: WrongType

x = stencil(p -> p[0], y)
#! 1:24: UnknownName

a = fill(1, 2)
x = map(p -> map(q -> p + q, a), a)
#! 2:30: WrongType

x = 9223372036854775808
#! 1:5: WideNumber

x = 1 ? 2
#! 1:7: BadByte

x = fill(1, 3
#! 1:14: Syntax
";

#[test]
fn columns(rt: HostRuntime) -> Result<(), Fail> {
    hold(rt.alloc(), COLUMNS)
}

#[test]
fn calls(rt: HostRuntime) -> Result<(), Fail> {
    hold(rt.alloc(), CALLS)
}
