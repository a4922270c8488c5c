// Tests of `seq` on whole scripts: where each construct has no value, and what was written before.

use crate::evaluating::hold;
use std::test::Fail;

/// Division by zero, and of the least number by -1.
const DIVIDE: &str = r#"println(div(1, 0))
#! 1:9: trap Divide

println(rem(1, 0))
#! 1:9: trap Divide

println(1 + div(-9223372036854775807 - 1, -1))
#! 1:13: trap Divide

x = div.(fill(1, 2), 0)
#! 1:5: trap Divide

x = div.(1, fill(0, 2))
#! 1:5: trap Divide

x = div.(fill(4, 2), 1 .- collect(0:1))
#! 1:5: trap Divide

x = rem.(fill(1, 2), 0)
#! 1:5: trap Divide

x = rem.(1, fill(0, 2))
#! 1:5: trap Divide

x = rem.(fill(4, 2), 1 .- collect(0:1))
#! 1:5: trap Divide

x = div.(fill(-9223372036854775807 - 1, 1), -1)
#! 1:5: trap Divide

x = map(p -> div(6, p), collect(0:2))
#! 1:14: trap Divide

x = map(p -> 1 + rem(p, p - 2), collect(1:3))
#! 1:18: trap Divide

x = stencil(p -> div(p[0], p[1]), fill(1, 3))
#! 1:18: trap Divide

d = DataFrame(v = collect(1:3))
f = filter(d, rem.(6, :v .- 3) .== 0)
#! 2:15: trap Divide

x = true && div(1, 0) == 0
#! 1:13: trap Divide

x = false || div(1, 0) == 0
#! 1:14: trap Divide

println(fill(false, 2) .& map(p -> div(1, p) == 1, fill(0, 2)))
#! 1:36: trap Divide
"#;

/// Places that are not there.
const INDEX: &str = r#"x = fill(1, 2)
println(x[0])
#! 2:10: trap Index

x = fill(1, 2)
println(x[3])
#! 2:10: trap Index

x = fill(true, 2)
println(x[-1])
#! 2:10: trap Index

x = fill(1, 2)
y = x[9223372036854775807]
#! 2:6: trap Index

x = fill(1, 2)
y = x[-9223372036854775807 - 1]
#! 2:6: trap Index

println(fill(1, 0)[1])
#! 1:19: trap Index

x = fill(1, 2)
println(x[collect(0:1)])
#! 2:10: trap Index

x = fill(true, 2)
println(x[collect(2:3)])
#! 2:10: trap Index

println(fill(1, 0)[fill(1, 1)])
#! 1:19: trap Index

m = stack(fill(1, 2))
println(row(m, 0))
#! 2:9: trap Index

m = stack(fill(1, 2))
println(row(m, 2))
#! 2:9: trap Index

m = stack(fill(1, 0), fill(1, 0))
println(row(m, 2))
println(row(m, -1))
#> []
#! 3:9: trap Index
"#;

/// Lengths that differ.
const MISMATCH: &str = r#"x = fill(1, 2) .+ fill(1, 3)
#! 1:16: trap Mismatch

x = fill(1, 2) .- fill(1, 1)
#! 1:16: trap Mismatch

x = fill(1, 1) .* fill(1, 2)
#! 1:16: trap Mismatch

x = fill(1, 0) .+ fill(1, 1)
#! 1:16: trap Mismatch

x = fill(1, 2) .== fill(1, 3)
#! 1:16: trap Mismatch

x = fill(1, 2) .!= fill(1, 3)
#! 1:16: trap Mismatch

x = fill(1, 2) .< fill(1, 3)
#! 1:16: trap Mismatch

x = fill(1, 2) .<= fill(1, 3)
#! 1:16: trap Mismatch

x = fill(1, 2) .> fill(1, 3)
#! 1:16: trap Mismatch

x = fill(1, 2) .>= fill(1, 3)
#! 1:16: trap Mismatch

x = fill(true, 2) .& fill(true, 3)
#! 1:19: trap Mismatch

x = fill(true, 2) .| fill(true, 3)
#! 1:19: trap Mismatch

x = div.(fill(1, 2), fill(0, 3))
#! 1:5: trap Mismatch

x = rem.(fill(1, 2), fill(0, 3))
#! 1:5: trap Mismatch

x = min.(fill(1, 2), fill(1, 3))
#! 1:5: trap Mismatch

x = max.(fill(1, 2), fill(1, 3))
#! 1:5: trap Mismatch

d = DataFrame(v = collect(1:3))
f = filter(d, fill(true, 2))
#! 2:5: trap Mismatch

d = DataFrame(v = fill(1, 0))
f = filter(d, fill(true, 1))
#! 2:5: trap Mismatch

d = DataFrame(a = fill(1, 2), b = fill(1, 3))
#! 1:5: trap Mismatch

d = DataFrame(a = fill(1, 2), b = fill(1, 2), c = fill(1, 1))
#! 1:5: trap Mismatch

m = stack(fill(1, 2), fill(1, 3))
#! 1:5: trap Mismatch

m = stack(fill(1, 1048576), fill(1, 1048575))
#! 1:5: trap Mismatch

m = stack(fill(1, 2))
n = m * m
#! 2:7: trap Mismatch

m = stack(fill(1, 2))
n = stack(fill(1, 1048576))
k = n * m
#! 3:7: trap Mismatch

m = stack(fill(1, 2))
n = stack(fill(1, 3))
g = m * transpose(n)
#! 3:7: trap Mismatch
"#;

/// Lengths below zero, nothing to choose from, and lengths above the limit.
const LENGTHS: &str = r#"x = fill(1, -1)
#! 1:5: trap BadLength

x = fill(true, -9223372036854775807 - 1)
#! 1:5: trap BadLength

println(sum(fill(1, -1)))
#! 1:13: trap BadLength

println(minimum(fill(1, 0)))
#! 1:9: trap Empty

println(maximum(collect(2:1)))
#! 1:9: trap Empty

d = DataFrame(v = collect(1:3))
f = filter(d, :v .> 3)
println(maximum(f.v))
#! 3:9: trap Empty

x = fill(1, 1048577)
#! 1:5: trap TooLong

x = fill(true, 9223372036854775807)
#! 1:5: trap TooLong

x = collect(1:1048577)
#! 1:5: trap TooLong

x = collect(0:9223372036854775807)
#! 1:5: trap TooLong

x = collect(-9223372036854775807 - 1:9223372036854775807)
#! 1:5: trap TooLong

x = vcat(fill(1, 1048576), fill(1, 1))
#! 1:5: trap TooLong

x = vcat(fill(true, 524288), fill(true, 524289))
#! 1:5: trap TooLong

l = DataFrame(k = fill(1, 1024))
r = DataFrame(k = fill(1, 1025))
j = join(l, r, :k)
#! 3:5: trap TooLong

x = fill(1, 524289)
m = stack(x, x)
#! 2:5: trap TooLong

a = stack(fill(1, 1), fill(1, 1))
b = stack(fill(1, 524289))
c = a * b
#! 3:7: trap TooLong
"#;

/// Which trap comes first, and what was written before it.
const ORDER: &str = r#"println(1)
x = fill(2, 3)
write_csv(DataFrame(x = x))
println(x[4])
println(5)
#> 1
#> x
#> 2
#> 2
#> 2
#! 4:10: trap Index

x = fill(1, 2)
println(div(1, 0) + x[3])
#! 2:9: trap Divide

x = fill(1, 2)
println(x[3] + div(1, 0))
#! 2:10: trap Index

x = fill(div(1, 0), -1)
#! 1:10: trap Divide

x = fill(1, 2) .+ fill(div(1, 0), 3)
#! 1:24: trap Divide

println(fill(1, -1)[div(1, 0)])
#! 1:9: trap BadLength

d = DataFrame(v = collect(1:3))
f = filter(filter(d, fill(true, 2)), :v .> div(1, 0))
#! 2:12: trap Mismatch

d = DataFrame(v = collect(1:3))
f = filter(d, :v .> div(1, 0))
#! 2:21: trap Divide

x = vcat(fill(1, 1048577), fill(1, -1))
#! 1:10: trap TooLong

x = map(p -> div(1, p), fill(0, -1))
#! 1:25: trap BadLength

x = map(p -> div(1, p - 2) + rem(1, p - 1), collect(1:2))
#! 1:30: trap Divide

d = DataFrame(a = fill(1, 2), b = fill(1, -2), c = fill(div(1, 0), 1))
#! 1:35: trap BadLength

i = 3
while div(6, i) > 0
println(i)
i = i - 1
end
#> 3
#> 2
#> 1
#! 2:7: trap Divide

if div(1, 0) == 0
println(1)
else
println(2)
end
#! 1:4: trap Divide

if true
println(1)
x = minimum(fill(1, 0))
println(x)
end
println(2)
#> 1
#! 3:5: trap Empty

if false
x = minimum(fill(1, 0))
end
while false
y = fill(1, -1)
end
println(2)
#> 2
"#;

#[test]
fn divide(rt: HostRuntime) -> Result<(), Fail> {
    hold(rt.alloc(), DIVIDE, 1_000)
}

#[test]
fn index(rt: HostRuntime) -> Result<(), Fail> {
    hold(rt.alloc(), INDEX, 1_000)
}

#[test]
fn mismatch(rt: HostRuntime) -> Result<(), Fail> {
    hold(rt.alloc(), MISMATCH, 1_000)
}

#[test]
fn lengths(rt: HostRuntime) -> Result<(), Fail> {
    hold(rt.alloc(), LENGTHS, 1_000)
}

#[test]
fn order(rt: HostRuntime) -> Result<(), Fail> {
    hold(rt.alloc(), ORDER, 1_000)
}
