// Tests of worked scripts, as `seq` evaluates them, and of the tables that they read.

use crate::worked::hold;
use std::test::Fail;

/// Worked scripts over no tables.
const SCRIPTS: &str = r#"x = fill(3, 10)
println(sum(x))
#> 30

println(minimum(collect(5:6)))
#> 5

println(minimum(collect(2:1)))
#! 1:9: trap Empty

println(sum(fill(9223372036854775807, 2)))
#> -2

println(1)
s = sum(fill(1, 8))
y = div.(fill(s, 8), 8 .- collect(1:8))
println(2)
#> 1
#! 3:5: trap Divide

println(stencil(x -> x[-3] + x[3], collect(1:4)))
#> [4, 0, 0, 1]

f = DataFrame(v = collect(1:8))
g = filter(f, :v .> 4)
s = stencil(x -> x[-1] + x[0] + x[1], g.v)
println(s)
#> [11, 18, 21, 15]

f = DataFrame(v = collect(1:8))
g = filter(f, :v .> 4)
h = filter(f, :v .< 5)
println(g.v .+ h.v)
#> [6, 8, 10, 12]

f = DataFrame(v = collect(1:8))
g = filter(f, :v .> 4)
h = filter(f, :v .< 4)
println(g.v .+ h.v)
#! 4:13: trap Mismatch

x = fill(1, 4)
y = x .+ 1
println(y[2])
#> 2

y = div.(fill(1, 3), fill(0, 3))
println(7)
#! 1:5: trap Divide

println(cumsum(collect(1:3)))
#> [1, 3, 6]

x = fill(1, 3
#! 1:14: Syntax

println(div(-7, 2))
println(rem(-7, 2))
println(rem(-9223372036854775807 - 1, -1))
println(false && div(1, 0) == 0)
#> -3
#> -1
#> 0
#> false

println(vcat(collect(1:2), collect(5:7)))
x = collect(1:3)
println(x[collect(2:3)])
#> [1, 2, 5, 6, 7]
#> [2, 3]

a = collect(1:3)
b = fill(2, 3)
m = stack(a, b)
g = m * transpose(m)
println(row(g, 1))
h = g * m
println(row(h, 2))
#> [14, 12]
#> [36, 48, 60]

println(sum(fill(1, 1048576)))
#> 1048576

println(sum(fill(1, 1048577)))
#! 1:13: trap TooLong

l = DataFrame(k = fill(1, 1025))
j = join(l, l, :k)
#! 2:5: trap TooLong

if false
x = minimum(fill(1, 0))
end
while false
x = fill(1, -1)
end
println(2)
#! 5:1: TypeChanged
"#;

/// Worked scripts that read tables.
const TABLES: &str = r#"l = read_csv("l.csv", :id, :a)
r = read_csv("r.csv", :id, :b)
j = join(l, r, :id)
write_csv(sort(j, :id))
#@ l.csv: id,a / 1,10 / 1,11 / 2,12
#@ r.csv: id,b / 1,20 / 1,21 / 3,22
#> id,a,b
#> 1,10,20
#> 1,10,21
#> 1,11,20
#> 1,11,21

l = read_csv("l.csv", :id, :a)
r = read_csv("r.csv", :id, :b)
j = join(l, r, :id)
write_csv(aggregate(j, :id, total = sum(:a), n = count()))
println(j.b)
println(sum(j.a .* j.b))
#@ l.csv: id,a / 1,10 / 1,11 / 2,12
#@ r.csv: id,b / 1,20 / 1,21 / 3,22
#> id,total,n
#> 1,42,4
#> [20, 21, 20, 21]
#> 861

t = read_csv("gen.csv", :id, :v)
f = filter(t, :v .>= 50)
a = aggregate(f, :id, total = sum(:v), n = count())
println(nrow(f))
write_csv(sort(a, :id))
println(sum(cumsum(f.v)))
#@ gen.csv: id,v / 1,31 / 2,62 / 3,93 / 4,24 / 5,55 / 6,86 / 0,17 / 1,48 / 2,79 / 3,10
#> 5
#> id,total,n
#> 2,141,2
#> 3,93,1
#> 5,55,1
#> 6,86,1
#> 1098

t = read_csv("t.csv", :id, :amount)
#@ t.csv: id,amount / 1,10 / 2,x
#! t.csv: row 2: bad cell in amount

t = read_csv("t.csv", :id, :amount)
#@ t.csv
#! t.csv: no header

t = read_csv("t.csv", :id, :amount)
#@ t.csv: id,cost
#! t.csv: no column amount

t = read_csv("t.csv", :id, :amount)
#@ t.csv: id,amount / 1,10 / 2
#! t.csv: row 2: ragged

t = read_csv("t.csv", :id, :amount)
#@ t.csv: id,amount / 1,9223372036854775808
#! t.csv: row 1: bad cell in amount

t = read_csv("t.csv", :id, :amount)
write_csv(t)
#@ t.csv: id,amount / 1,-9223372036854775808
#> id,amount
#> 1,-9223372036854775808

t = read_csv("t.csv", :id, :amount)
println(nrow(t))
write_csv(t)
println(t.id)
#@ t.csv: id,amount
#> 0
#> id,amount
#> []

t = read_csv("t.csv", :id, :amount)
println(t.id)
println(t.amount)
#@ t.csv: amount,note,id / 10,"a, b",1
#> [1]
#> [10]

t = read_csv("t.csv", :id, :amount)
println(1)
#! t.csv: cannot be read

t = read_csv("t.csv", :b, :a)
u = read_csv("t.csv", :a)
write_csv(t)
println(u.a .- t.b)
#@ t.csv: a,b / 1,-2 / 007,0
#> b,a
#> -2,1
#> 0,7
#> [3, 7]
"#;

#[test]
fn scripts(rt: HostRuntime) -> Result<(), Fail> {
    hold(rt.alloc(), SCRIPTS, "seq a.hp")
}

#[test]
fn tables(rt: HostRuntime) -> Result<(), Fail> {
    hold(rt.alloc(), TABLES, "seq a.hp")
}
