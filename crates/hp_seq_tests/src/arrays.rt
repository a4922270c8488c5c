// Tests of `seq` on whole scripts: words and arrays, their ends, empty ones, and how values are written.

use crate::evaluating::hold;
use std::test::Fail;

/// Words at the ends of what they hold, and division.
const WORDS: &str = r#"println(9223372036854775807 + 1)
println(-9223372036854775807 - 2)
println(0 - (-9223372036854775807 - 1))
println(-(-9223372036854775807 - 1))
println(9223372036854775807 * 2)
println((-9223372036854775807 - 1) * -1)
println(4294967296 * 4294967296)
println(3037000500 * 3037000500)
#> -9223372036854775808
#> 9223372036854775807
#> -9223372036854775808
#> -9223372036854775808
#> -2
#> -9223372036854775808
#> 0
#> -9223372036709301616

println(div(7, 2))
println(div(-7, 2))
println(div(7, -2))
println(div(-7, -2))
println(rem(7, 2))
println(rem(-7, 2))
println(rem(7, -2))
println(rem(-7, -2))
println(div(0, -3))
println(rem(0, -3))
#> 3
#> -3
#> -3
#> 3
#> 1
#> -1
#> 1
#> -1
#> 0
#> 0

x = -9223372036854775807 - 1
println(rem(x, -1))
println(rem.(fill(x, 2), -1))
println(div(x, 1))
println(div(x, -2))
println(div(x + 1, -1))
println(div(-1, x))
println(rem(-1, x))
println(div(x, x))
println(div.(fill(x, 1), x))
#> 0
#> [0, 0]
#> -9223372036854775808
#> 4611686018427387904
#> 9223372036854775807
#> 0
#> -1
#> 1
#> [1]

println(min(3, -4))
println(max(3, -4))
println(min(-9223372036854775807 - 1, 9223372036854775807))
println(max(-9223372036854775807 - 1, 9223372036854775807))
println(-9223372036854775807 - 1 < 9223372036854775807)
println(1 == 2)
println(1 != 2)
println(1 < 2)
println(1 <= 1)
println(1 > 2)
println(2 >= 3)
#> -4
#> 3
#> -9223372036854775808
#> 9223372036854775807
#> true
#> false
#> true
#> true
#> true
#> false
#> false

x = fill(9223372036854775807, 3)
println(sum(x))
println(prod(x))
println(cumsum(x))
println(x .+ 1)
println(-2 .- x)
println(x .* 2)
println(x .* x)
println(map(p -> -p - 2, x))
println(stencil(p -> p[0] + p[-1], x))
#> 9223372036854775805
#> 9223372036854775807
#> [9223372036854775807, -2, 9223372036854775805]
#> [-9223372036854775808, -9223372036854775808, -9223372036854775808]
#> [9223372036854775807, 9223372036854775807, 9223372036854775807]
#> [-2, -2, -2]
#> [1, 1, 1]
#> [9223372036854775807, 9223372036854775807, 9223372036854775807]
#> [9223372036854775807, -2, -2]

x = fill(-9223372036854775807 - 1, 2)
println(sum(x))
println(prod(x))
println(cumsum(x))
println(minimum(x) + maximum(x))
d = DataFrame(k = fill(0, 2), v = x)
write_csv(aggregate(d, :k, s = sum(:v), low = minimum(:v), high = maximum(:v)))
m = stack(x, fill(9223372036854775807, 2))
println(row(m * transpose(m), 1))
println(row(m * transpose(m), 2))
#> 0
#> 0
#> [-9223372036854775808, 0]
#> 0
#> k,s,low,high
#> 0,0,-9223372036854775808,-9223372036854775808
#> [0, 0]
#> [0, 2]
"#;

/// Every construct on arrays.
const ARRAYS: &str = r#"x = collect(1:3)
println(x .== 2)
println(x .!= 2)
println(2 .< x)
println(x .<= x)
println(x .> 2)
println(3 .>= x)
println(x .< (4 .- x))
println(x .- 1)
println(1 .- x)
println(x .* x .+ x)
println(div.(7, x))
println(div.(x, 2))
println(rem.(7, x))
println(min.(x, 2))
println(max.(2, x))
println(min.(x, 4 .- x))
#> [false, true, false]
#> [true, false, true]
#> [false, false, true]
#> [true, true, true]
#> [false, false, true]
#> [true, true, true]
#> [true, false, false]
#> [0, 1, 2]
#> [0, -1, -2]
#> [2, 6, 12]
#> [7, 3, 2]
#> [0, 1, 1]
#> [0, 1, 1]
#> [1, 2, 2]
#> [2, 2, 3]
#> [1, 2, 1]

x = collect(1:3)
b = x .> 1
println(b .& true)
println(false .| b)
println(b .& (x .< 3))
println(b .| (x .== 1))
println(.!b)
println(count(b))
println(any(b))
println(all(b))
println(all(b .| .!b))
println(any(b .& .!b))
println(length(b))
println(map(p -> !p, b))
println(map(p -> p > 1, x))
println(map(p -> 7, b))
#> [false, true, true]
#> [false, true, true]
#> [false, true, false]
#> [true, true, true]
#> [true, false, false]
#> 2
#> true
#> false
#> true
#> false
#> 3
#> [true, false, false]
#> [false, true, true]
#> [7, 7, 7]

x = collect(-2:3)
println(sum(x))
println(prod(x))
println(minimum(x))
println(maximum(x))
println(length(x))
println(cumsum(x))
println(stencil(p -> p[-1] * p[1], x))
println(stencil(p -> p[64] + p[-64], x))
println(stencil(p -> 7, fill(0, 2)))
println(vcat(x[collect(1:2)], fill(9, 1)))
println(vcat(x .> 2, fill(false, 1)))
#> 3
#> 0
#> -2
#> 3
#> 6
#> [-2, -3, -3, -2, 0, 3]
#> [0, 0, -1, 0, 3, 0]
#> [0, 0, 0, 0, 0, 0]
#> [7, 7]
#> [-2, -1, 9]
#> [false, false, false, false, false, true, false]

x = collect(11:14)
println(x[1])
println(x[4])
println(x[x[1] - 9])
println(x[collect(2:3)])
println(x[fill(4, 3)])
println((x .> 12)[3])
println((x .> 12)[collect(2:3)])
println(row(stack(x, x .+ 4), 2)[1])
#> 11
#> 14
#> 12
#> [12, 13]
#> [14, 14, 14]
#> true
#> [false, true]
#> 15

println(length(collect(1:1048576)))
println(length(fill(true, 1048576)))
println(length(vcat(fill(1, 1048575), fill(1, 1))))
println(length(row(stack(fill(1, 524288), fill(2, 524288)), 2)))
println(collect(9223372036854775806:9223372036854775807))
println(collect(-9223372036854775807 - 1:-9223372036854775807))
println(collect(9223372036854775807:-9223372036854775807))
#> 1048576
#> 1048576
#> 1048576
#> 524288
#> [9223372036854775806, 9223372036854775807]
#> [-9223372036854775808, -9223372036854775807]
#> []
"#;

/// Every construct on what is empty.
const EMPTY: &str = r#"e = fill(1, 0)
println(e)
println(length(e))
println(sum(e))
println(prod(e))
println(cumsum(e))
println(map(p -> div(1, 0), e))
println(stencil(p -> p[0] + p[1], e))
println(e .+ 1)
println(e .* e)
println(div.(e, 0))
println(e .== e)
println(vcat(e, e))
println(vcat(e, fill(2, 1)))
println(vcat(fill(2, 1), e))
println(fill(5, 2)[e])
println(e[e])
println(collect(2:1))
println(collect(5:1))
#> []
#> 0
#> 0
#> 1
#> []
#> []
#> []
#> []
#> []
#> []
#> []
#> []
#> [2]
#> [2]
#> []
#> []
#> []
#> []

b = fill(true, 0)
println(b)
println(any(b))
println(all(b))
println(count(b))
println(length(b))
println(.!b)
println(b .& true)
println(b .| b)
println(vcat(b, b))
println(map(p -> !p, b))
println(fill(true, 2)[fill(1, 0)])
#> []
#> false
#> true
#> 0
#> 0
#> []
#> []
#> []
#> []
#> []
#> []

d = DataFrame(k = fill(1, 0), v = fill(2, 0))
println(nrow(d))
println(d.v)
write_csv(d)
write_csv(filter(d, :v .> 0))
write_csv(sort(d, :k))
r = DataFrame(w = fill(3, 2), k = collect(1:2))
write_csv(join(d, r, :k))
write_csv(join(r, d, :k))
write_csv(aggregate(d, :k, s = sum(:v), low = minimum(:v), high = maximum(:v), n = count()))
#> 0
#> []
#> k,v
#> k,v
#> k,v
#> k,v,w
#> w,k,v
#> k,s,low,high,n

l = DataFrame(k = collect(1:2), a = collect(3:4))
r = DataFrame(k = collect(5:6), b = collect(7:8))
j = join(l, r, :k)
println(nrow(j))
println(j.b)
write_csv(j)
write_csv(aggregate(j, :k, n = count()))
#> 0
#> []
#> k,a,b
#> k,n

d = DataFrame(v = collect(1:3))
f = filter(d, fill(false, 3))
write_csv(f)
println(sum(f.v))
println(cumsum(f.v))
println(nrow(f))
g = filter(f, :v .> 0)
println(g.v)
println(stencil(p -> p[1], g.v))
#> v
#> 0
#> []
#> 0
#> []
#> []

e = fill(0, 0)
m = stack(e, e)
println(row(m, 2))
g = m * transpose(m)
println(row(g, 1))
h = g * m
println(row(h, 1))
println(length(row(h, 2)))
#> []
#> [0, 0]
#> []
#> 0
"#;

/// How values are written.
const WRITTEN: &str = r#"println(0)
println(-9223372036854775807 - 1)
println(9223372036854775807)
println(007)
println(true)
println(1 > 2)
println(fill(-1, 1))
println(collect(-1:2))
println(fill(true, 2))
println(.!fill(true, 1))
println(fill(7, 0))
println(fill(true, 0))
#> 0
#> -9223372036854775808
#> 9223372036854775807
#> 7
#> true
#> false
#> [-1]
#> [-1, 0, 1, 2]
#> [true, true]
#> [false]
#> []
#> []

d = DataFrame(a = collect(-1:1), b_2 = fill(5, 3), _C = fill(0, 3))
write_csv(d)
write_csv(filter(d, :a .> 1))
write_csv(DataFrame(z = fill(-9223372036854775807 - 1, 1)))
println(d._C)
#> a,b_2,_C
#> -1,5,0
#> 0,5,0
#> 1,5,0
#> a,b_2,_C
#> z
#> -9223372036854775808
#> [0, 0, 0]
"#;

#[test]
fn words(rt: HostRuntime) -> Result<(), Fail> {
    hold(rt.alloc(), WORDS, 1_000)
}

#[test]
fn arrays(rt: HostRuntime) -> Result<(), Fail> {
    hold(rt.alloc(), ARRAYS, 1_000)
}

#[test]
fn empty(rt: HostRuntime) -> Result<(), Fail> {
    hold(rt.alloc(), EMPTY, 1_000)
}

#[test]
fn written(rt: HostRuntime) -> Result<(), Fail> {
    hold(rt.alloc(), WRITTEN, 1_000)
}
