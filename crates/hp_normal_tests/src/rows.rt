// The steps of worked scripts. Numbers and truth values are words, and a name copies its arrays.

use crate::programs::becomes;
use std::test::*;

const SUM: &str = "x = fill(3, 10)
println(sum(x))
";

#[test]
fn sum_of_an_array(rt: HostRuntime) {
    let steps = "Const Const Fill Copy Copy Reduce PrintWord";
    assert!(rt; becomes(rt.alloc(), SUM, steps, 3));
}

const NEIGHBOURS: &str = "f = DataFrame(v = collect(1:8))
g = filter(f, :v .> 4)
s = stencil(x -> x[-1] + x[0] + x[1], g.v)
println(s)
";

#[test]
fn filtered_neighbours(rt: HostRuntime) {
    let steps =
        "Const Const Range Frame Copy Copy Copy Const Map Filter Copy Copy Stencil Copy Copy PrintList";
    assert!(rt; becomes(rt.alloc(), NEIGHBOURS, steps, 13));
}

const TABLES: &str = r#"l = read_csv("l.csv", :id, :a)
r = read_csv("r.csv", :id, :b)
j = join(l, r, :id)
write_csv(sort(j, :id))
"#;

#[test]
fn joined_tables(rt: HostRuntime) {
    let steps = "Read Copy Read Copy Copy Copy Join Copy Copy Sort Export";
    assert!(rt; becomes(rt.alloc(), TABLES, steps, 24));
}

const ELEMENT: &str = "x = fill(1, 4)
y = x .+ 1
println(y[2])
";

#[test]
fn element_of_a_sum(rt: HostRuntime) {
    let steps = "Const Const Fill Copy Copy Const Map Copy Copy Const At PrintWord";
    assert!(rt; becomes(rt.alloc(), ELEMENT, steps, 6));
}

const SALES: &str = r#"s = read_csv("sales.csv", :store, :amount)
d = sort(read_csv("stores.csv", :store, :region), :store)
big = filter(s, :amount .>= 50)
j = join(big, d, :store)
a = aggregate(j, :region, total = sum(:amount), n = count())
write_csv(sort(a, :region))
"#;

#[test]
fn report_of_sales(rt: HostRuntime) {
    let steps =
        "Read Copy Read Sort Copy Copy Copy Const Map Filter Copy Copy Copy Join Copy Copy Group Copy Copy Sort Export";
    assert!(rt; becomes(rt.alloc(), SALES, steps, 43));
}

const PRODUCTS: &str = "a = collect(1:3)
b = fill(2, 3)
m = stack(a, b)
g = m * transpose(m)
println(row(g, 1))
h = g * m
println(row(h, 2))
";

#[test]
fn products_of_matrices(rt: HostRuntime) {
    let steps =
        "Const Const Range Copy Const Const Fill Copy Copy Copy Stack Copy Copy Copy ProductT Copy Copy Const Row PrintList Copy Copy Product Copy Copy Const Row PrintList";
    assert!(rt; becomes(rt.alloc(), PRODUCTS, steps, 20));
}
