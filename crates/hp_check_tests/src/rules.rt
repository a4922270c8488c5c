// Tests of the rules by texts of scripts: every construct, names and types.

use crate::checking::hold;
use std::test::Fail;

/// A script of every construct.
const EVERY_CONSTRUCT: &str = "t = read_csv(\"sales.csv\", :store, :amount)
d = DataFrame(store = collect(0:3), region = fill(10, 4))
big = filter(t, (:amount .>= 50) .& .!(:store .== 1) .| true)
j = sort(join(big, d, :store), :store)
a = aggregate(j, :region, total = sum(:amount), low = minimum(:amount), high = maximum(:amount), n = count())
write_csv(sort(a, :region))
x = map(p -> max(p * 2, min(-p, rem(p, 3))) + div(1, 2), a.total)
b = map(p -> p > 1 && !(p == 2) || false, x)
c = map(q -> !q, b)
s = stencil(p -> p[-3] + p[64] * p[0], cumsum(x))
v = vcat(b, fill(false, nrow(a)))
m = stack(x, s, fill(1, length(v)))
g = m * transpose(m)
h = g * m
println(row(h, 2)[1] + x[1] - sum(x) * prod(s) + minimum(x) + maximum(x) + count(b))
println(any(b) || all(b) && x[1] <= 2)
println(div.(x, 2) .+ rem.(1, x) .* min.(x, s) .- max.(x, s))
println(b[collect(1:2)])
println(x[collect(1:2)])
if b[1]
  y = 1
else
  y = 2
end
while y < 10
  y = y + 1
end
println(y)
#> ok
";

/// Names that are assigned nowhere, or not on every path, and those that parameters hide.
const NAMES: &str = "println(y)
#! 1:9: UnknownName

if true
x = 1
end
println(x)
#! 4:9: MaybeUnset

if true
x = 1
else
x = 2
end
println(x)
#> ok

if true
x = 1
else
y = 2
end
println(x)
#! 6:9: MaybeUnset

while false
x = 1
end
println(x)
#! 4:9: MaybeUnset

while false
x = 1
println(x)
end
#> ok

while true
println(x)
x = 1
end
#! 2:9: MaybeUnset

x = 1
while x < 2
x = x + 1
end
println(x)
#> ok

if true
if false
x = 1
else
x = 3
end
else
x = 2
end
println(x)
#> ok

println(x)
x = 1
#! 1:9: MaybeUnset

x = x
#! 1:5: MaybeUnset

p = 1
x = map(p -> p + 1, fill(1, 2))
#> ok

p = fill(1, 2)
x = map(p -> p + 1, p)
#> ok

q = 5
x = map(p -> p + q, fill(1, 2))
#> ok

x = map(p -> p + q, fill(1, 2))
q = 1
#! 1:18: MaybeUnset

x = map(p -> p + q, fill(1, 2))
#! 1:18: UnknownName
";

/// Types that change, and operands of types that fit no row of the language.
const TYPES: &str = "x = 1
x = true
#! 2:1: TypeChanged

x = 1
if true
x = fill(1, 2)
end
#! 3:1: TypeChanged

d = DataFrame(a = fill(1, 2))
d = DataFrame(b = fill(1, 2))
#! 2:1: TypeChanged

d = DataFrame(a = fill(1, 2))
d = DataFrame(a = fill(3, 4))
#> ok

x = 1 .+ 2
#! 1:7: WrongType

x = -fill(1, 2)
#! 1:5: WrongType

x = !1
#! 1:5: WrongType

x = .!true
#! 1:5: WrongType

x = true + 1
#! 1:10: WrongType

x = 1 && true
#! 1:7: WrongType

x = true < false
#! 1:10: WrongType

x = fill(1, 2) + 1
#! 1:16: WrongType

x = fill(true, 2) .+ 1
#! 1:19: WrongType

x = fill(1, 2) .& true
#! 1:16: WrongType

x = true .& false
#! 1:10: WrongType

x = div(1, true)
#! 1:5: WrongType

x = div.(1, 2)
#! 1:5: WrongType

x = fill(fill(1, 1), 2)
#! 1:5: WrongType

x = fill(1, true)
#! 1:5: WrongType

x = collect(1:true)
#! 1:5: WrongType

x = collect(1)
#! 1:5: WrongType

x = sum(1:2)
#! 1:5: WrongType

x = sum(fill(true, 1))
#! 1:5: WrongType

x = any(fill(1, 1))
#! 1:5: WrongType

x = count(fill(1, 1))
#! 1:5: WrongType

x = length(1)
#! 1:5: WrongType

x = cumsum(fill(true, 1))
#! 1:5: WrongType

x = vcat(fill(1, 1), fill(true, 1))
#! 1:5: WrongType

x = fill(1, 2)[true]
#! 1:15: WrongType

x = 1[1]
#! 1:6: WrongType

x = stack(fill(true, 1))
#! 1:5: WrongType

x = row(1, 1)
#! 1:5: WrongType

x = nrow(1)
#! 1:5: WrongType

x = \"a\"
#! 1:5: WrongType

x = :a
#! 1:5: WrongType

println(DataFrame(a = fill(1, 2)))
#! 1:1: WrongType

println(stack(fill(1, 2)))
#! 1:1: WrongType

write_csv(1)
#! 1:1: WrongType

if 1
end
#! 1:1: WrongType

while fill(true, 1)
end
#! 1:1: WrongType

m = stack(fill(1, 2))
x = transpose(m)
#! 2:5: WrongType

m = stack(fill(1, 2))
x = transpose(m) * m
#! 2:5: WrongType

m = stack(fill(1, 2))
x = 1 * transpose(m)
#! 2:7: WrongType

m = stack(fill(1, 2))
x = m * transpose(1)
#! 2:7: WrongType

x = 1 * transpose(1, 2)
#! 1:9: WrongCount

x = transpose(y)
#! 1:15: UnknownName

m = stack(fill(1, 2))
x = m * 1
#! 2:7: WrongType

m = stack(fill(1, 2))
x = row(m, true)
#! 2:5: WrongType

x = rem(true, 1)
#! 1:5: WrongType

x = max(1, false)
#! 1:5: WrongType

x = prod(fill(true, 1))
#! 1:5: WrongType

x = minimum(1)
#! 1:5: WrongType

x = all(1)
#! 1:5: WrongType

x = collect(true:1)
#! 1:5: WrongType
";

#[test]
fn every_construct(rt: HostRuntime) -> Result<(), Fail> {
    hold(rt.alloc(), EVERY_CONSTRUCT)
}

#[test]
fn names(rt: HostRuntime) -> Result<(), Fail> {
    hold(rt.alloc(), NAMES)
}

#[test]
fn types(rt: HostRuntime) -> Result<(), Fail> {
    hold(rt.alloc(), TYPES)
}
