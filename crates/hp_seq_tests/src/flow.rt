// Tests of the evaluator on loops and their turns, control flow and names.

use crate::evaluating::hold;
use std::test::Fail;

/// Scripts under 500 turns.
const TURNS: &str = r#"println(7)
while true
end
#> 7
#! turns spent

i = 0
while i < 500
i = i + 1
end
println(i)
#> 500

i = 0
while i < 501
i = i + 1
end
println(i)
#! turns spent

i = 0
n = 0
while i < 25
j = 0
while j < 19
j = j + 1
n = n + 1
end
i = i + 1
end
println(n)
#> 475

i = 0
while i < 25
j = 0
while j < 20
j = j + 1
end
i = i + 1
end
println(i)
#! turns spent

i = 0
while div(1, 500 - i) >= 0
i = i + 1
end
#! 2:7: trap Divide

i = 0
while i < 2
if i < 1
println(i)
else
while true
end
end
i = i + 1
end
#> 0
#! turns spent
"#;

/// Control flow and names.
const FLOW: &str = r#"# Nothing.

i = 0
while i < 3
if i == 1
println(10)
else
println(i)
end
i = i + 1
end
#> 0
#> 10
#> 2

i = 1
n = 0
while i <= 3
j = i
while j <= 3
n = n + j
j = j + 1
end
i = i + 1
end
println(n)
#> 14

x = 5
if x > 3 && x < 10
y = 1
else
y = 2
end
println(y)
if !(x == 5)
println(3)
end
if x == 5
else
println(4)
end
if x != 5
else
println(5)
end
#> 1
#> 5

while false
println(1)
end
x = true
while x
println(x)
x = false
end
println(x)
#> true
#> false

println(false && div(1, 0) == 0)
println(true || div(1, 0) == 0)
println(true && div(1, 1) == 1)
println(false || div(1, 1) == 0)
println(map(p -> p == 0 || div(6, p) > 2, collect(0:3)))
println(map(p -> p != 0 && div(6, p) > 2, collect(0:3)))
#> false
#> true
#> true
#> false
#> [true, true, true, false]
#> [false, true, true, false]

println(1 + 2 * 3 - 4)
println(-2 * 3)
println(10 - 3 - 2)
println(2 * (3 + 4))
println(!true || true)
println(!(true || true))
println(true || false && false)
println((true || false) && false)
println(1 + 1 == 2 && 3 > 2)
println(- -3)
println(!!true)
#> 3
#> -6
#> 5
#> 14
#> true
#> false
#> true
#> false
#> true
#> 3
#> true

p = 100
x = map(p -> p + 1, collect(1:3))
println(x)
println(p)
println(map(q -> q + p, x))
println(stencil(x -> x[-1] * 10 + x[0], x))
println(x)
#> [2, 3, 4]
#> 100
#> [102, 103, 104]
#> [2, 23, 34]
#> [2, 3, 4]

x = fill(1, 2)
y = x
x = vcat(x, x)
println(y)
println(x)
x = x .+ y[1]
println(x)
println(y)
#> [1, 1]
#> [1, 1, 1, 1]
#> [2, 2, 2, 2]
#> [1, 1]

v = 3
d = DataFrame(v = collect(1:5), k = fill(v, 5))
f = filter(d, :v .> v)
e = d
d = filter(d, :v .< 2)
println(f.v)
println(d.k)
println(e.k)
println(v)
println(nrow(f))
#> [4, 5]
#> [3]
#> [3, 3, 3, 3, 3]
#> 3
#> 2

d = DataFrame(d = collect(1:3), sum = fill(4, 3))
d = filter(d, :d .!= 2)
println(d.d)
println(sum(d.sum))
#> [1, 3]
#> 8

d = DataFrame(v = collect(1:4))
e = DataFrame(v = collect(4:6))
f = filter(d, :v .> nrow(filter(e, :v .> 4)))
println(f.v)
g = filter(d, (rem.(:v, 2) .== 1) .& (:v .> 1) .| (:v .== 4))
println(g.v)
#> [3, 4]
#> [3, 4]
"#;

#[test]
fn turns(rt: HostRuntime) -> Result<(), Fail> {
    hold(rt.alloc(), TURNS, 500)
}

#[test]
fn flow(rt: HostRuntime) -> Result<(), Fail> {
    hold(rt.alloc(), FLOW, 1_000)
}
