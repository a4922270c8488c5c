// Tests of `seq` on whole scripts: frames and matrices.

use crate::evaluating::{answered, hold};
use hp_worked::repeated;
use std::alloc::Global;
use std::test::Fail;

/// Joins, aggregates and sorts.
const FRAMES: &str = r#"a = collect(1:3)
b = collect(10:13)
l = DataFrame(a = a, k = map(p -> rem(p, 2), a))
r = DataFrame(b = b, k = map(p -> rem(p, 3), b))
write_csv(join(l, r, :k))
write_csv(join(r, l, :k))
#> a,k,b
#> 1,1,10
#> 1,1,13
#> 2,0,12
#> 3,1,10
#> 3,1,13
#> b,k,a
#> 10,1,1
#> 10,1,3
#> 12,0,2
#> 13,1,1
#> 13,1,3

k = vcat(fill(-9223372036854775807 - 1, 1), fill(9223372036854775807, 1))
write_csv(join(DataFrame(k = k, a = collect(1:2)), DataFrame(k = k), :k))
#> k,a
#> -9223372036854775808,1
#> 9223372036854775807,2

d = DataFrame(k = fill(1, 2))
write_csv(join(d, join(d, d, :k), :k))
l = DataFrame(k = fill(1, 1024))
println(nrow(join(l, l, :k)))
#> k
#> 1
#> 1
#> 1
#> 1
#> 1
#> 1
#> 1
#> 1
#> 1048576

i = collect(1:7)
d = DataFrame(v = map(p -> rem(5 * p, 7), i), g = map(p -> rem(p, 3), i))
write_csv(aggregate(d, :g, n = count(), s = sum(:v), low = minimum(:v), high = maximum(:v), k = sum(:g)))
write_csv(aggregate(sort(d, :g), :g, n = count()))
write_csv(sort(d, :g))
write_csv(sort(d, :v))
#> g,n,s,low,high,k
#> 1,3,11,0,6,3
#> 2,2,7,3,4,4
#> 0,2,3,1,2,0
#> g,n
#> 0,2
#> 1,3
#> 2,2
#> v,g
#> 1,0
#> 2,0
#> 0,1
#> 5,1
#> 6,1
#> 3,2
#> 4,2
#> v,g
#> 0,1
#> 1,0
#> 2,0
#> 3,2
#> 4,2
#> 5,1
#> 6,1

i = collect(1:4)
d = DataFrame(a = div.(4 .- i, 2), k = 5 .- div.(i, 4), b = vcat(2 .- collect(0:1), fill(9, 2)))
write_csv(d)
write_csv(sort(d, :k))
#> a,k,b
#> 1,5,2
#> 1,5,1
#> 0,5,9
#> 0,4,9
#> a,k,b
#> 0,4,9
#> 0,5,9
#> 1,5,1
#> 1,5,2

d = DataFrame(k = 1 .- 2 .* collect(0:2), v = fill(-1, 3))
write_csv(sort(d, :k))
write_csv(sort(d, :v))
write_csv(aggregate(d, :v, low = minimum(:k), high = maximum(:k)))
e = DataFrame(k = fill(2, 3), v = fill(3, 3))
write_csv(sort(e, :k))
#> k,v
#> -3,-1
#> -1,-1
#> 1,-1
#> k,v
#> -3,-1
#> -1,-1
#> 1,-1
#> v,low,high
#> -1,-3,1
#> k,v
#> 2,3
#> 2,3
#> 2,3
"#;

/// Matrices.
const MATRICES: &str = r#"m = stack(collect(1:3))
n = stack(collect(4:6), collect(7:9))
p = stack(fill(2, 1), fill(3, 1), fill(4, 1))
println(row(m * transpose(n), 1))
println(row(n * transpose(m), 2))
println(row(n * p, 1))
println(row(n * p, 2)[1])
println(row(p * m, 3))
k = n
n = n * transpose(n)
println(row(n, 2))
println(row(k, 2))
#> [32, 50]
#> [50]
#> [47]
#> 74
#> [4, 8, 12]
#> [122, 194]
#> [7, 8, 9]
"#;

#[test]
fn frames(rt: HostRuntime) -> Result<(), Fail> {
    hold(rt.alloc(), FRAMES, 1_000)
}

#[test]
fn matrices(rt: HostRuntime) -> Result<(), Fail> {
    hold(rt.alloc(), MATRICES, 1_000)
}

/// What is said of a product of a matrix of so many rows behind the first.
fn product(alloc: Global, rows: usize) -> Option<String> {
    let product = b")\nm = m * transpose(m)\nprintln(row(m, 1)[1])\n";
    let before = b"a = fill(3, 1)\nm = stack(a";
    let script = repeated(alloc, before, b", a", rows, product).ok()?;
    answered(alloc, &script, 1)
}

/// Whether this is said of a product of so many rows behind the first.
fn product_says(alloc: Global, rows: usize, said: &str) -> bool {
    match product(alloc, rows) {
        Some(found) => found.as_str() == said,
        None => false,
    }
}

#[test]
fn products(rt: HostRuntime) {
    let alloc = rt.alloc();
    for (rows, said) in [(1023, "9\n"), (1024, "3:7: trap TooLong\n")] {
        assert!(rt; product_says(alloc, rows, said), "{rows} rows");
    }
}
