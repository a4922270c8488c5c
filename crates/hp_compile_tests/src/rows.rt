// Worked scripts of words, arrays and the flow of control.

use crate::ranks::hold;
use std::test::*;

/// Folds, loops, stencils and traps.
const LOOPS: &str = r#"x = fill(3, 10)
println(sum(x))
#> 30

println(minimum(collect(5:6)))
#> 5

println(minimum(collect(2:1)))
#! 1:9: trap Empty

println(sum(fill(9223372036854775807, 2)))
#> -2

println(1)
s = sum(fill(1, 8))
y = div.(fill(s, 8), 8 .- collect(1:8))
println(2)
#> 1
#! 3:5: trap Divide

println(stencil(x -> x[-3] + x[3], collect(1:4)))
#> [4, 0, 0, 1]

x = fill(1, 4)
y = x .+ 1
println(y[2])
#> 2

y = div.(fill(1, 3), fill(0, 3))
println(7)
#! 1:5: trap Divide

println(cumsum(collect(1:3)))
#> [1, 3, 6]

x = fill(1, 3)
y = fill(1, 4)
z = x .+ y
println(sum(z))
#! 3:7: trap Mismatch"#;

/// Words, pieces, branches, loops of steps, and what is refused.
const FLOW: &str = r#"x = fill(1, 3
#! 1:14: Syntax

println(div(-7, 2))
println(rem(-7, 2))
println(rem(-9223372036854775807 - 1, -1))
println(false && div(1, 0) == 0)
#> -3
#> -1
#> 0
#> false

println(vcat(collect(1:2), collect(5:7)))
x = collect(1:3)
println(x[collect(2:3)])
#> [1, 2, 5, 6, 7]
#> [2, 3]

if false
x = minimum(fill(1, 0))
end
while false
y = fill(1, -1)
end
println(2)
#> 2

println(sum(fill(1, 1048577)))
#! 1:13: trap TooLong

x = fill(1, 2)
println(x)
#> [1, 1]

x = fill(2, 3)
y = x .+ x
z = collect(1:3)
println(y[1])
println(sum(z))
#> 4
#> 6

i = 0
x = collect(1:5)
while i < 3
x = x .* 2
i = i + 1
end
println(x)
println(length(x) == 5 || div(1, 0) == 0)
#> [8, 16, 24, 32, 40]
#> true

x = collect(1:3)
f = DataFrame(v = x)
#! 2:1: NotBuilt"#;

#[test]
fn loops(rt: HostRuntime) -> Result<(), Fail> {
    hold(rt.alloc(), LOOPS)
}

#[test]
fn flow(rt: HostRuntime) -> Result<(), Fail> {
    hold(rt.alloc(), FLOW)
}
