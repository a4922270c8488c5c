// Tests of the reader as a whole: scripts by their canonical text, and where texts are refused.

use hp_lex::lexer::{LexError, lex};
use hp_parse::error::ParseError;
use hp_parse::parse::parse;
use hp_script::printer::text;
use hp_script::rule::{Refusal, Rule};
use hp_word::place::Place;
use hp_worked::repeated;
use std::alloc::Global;
use std::test::*;

/// What a text is: the canonical text of its script, or why it is none; nothing where memory was refused.
#[derive(Drop)]
enum Outcome {
    Script(Vec<u8>),
    Refused(Refusal),
}

/// Reads a text.
fn read(alloc: Global, source: &[u8]) -> Option<Outcome> {
    let tokens = match lex(alloc, source) {
        Ok(tokens) => tokens,
        Err(LexError::Refused(refusal)) => return Some(Outcome::Refused(refusal)),
        Err(LexError::NoMemory) => return None,
    };
    match parse(alloc, &tokens) {
        Ok(script) => Some(Outcome::Script(text(alloc, &script).ok()?)),
        Err(ParseError::Refused(refusal)) => Some(Outcome::Refused(refusal)),
        Err(ParseError::NoMemory) => None,
    }
}

/// Whether a text is a script with this canonical text.
fn reads_as(alloc: Global, source: &[u8], canonical: &[u8]) -> bool {
    match read(alloc, source) {
        Some(Outcome::Script(found)) => found.as_slice() == canonical,
        _ => false,
    }
}

/// Whether a text is refused at this place by this rule.
fn is_refused(alloc: Global, source: &[u8], line: u32, col: u32, rule: Rule) -> bool {
    match read(alloc, source) {
        Some(Outcome::Refused(refusal)) => refusal.at == Place { line, col }
            && refusal.rule == rule,
        _ => false,
    }
}

#[test]
fn scripts_go_round(rt: HostRuntime) {
    let alloc = rt.alloc();
    for (at, (source, canonical)) in [
        (b"".as_slice(), b"".as_slice()),
        (b"\n # only\n\n".as_slice(), b"".as_slice()),
        (
            b" x=fill( (1) ,2 ) # two\n\nprintln( sum(x) )".as_slice(),
            b"x = fill(1, 2)\nprintln(sum(x))\n".as_slice(),
        ),
        (
            b"x=1+2*3-(4-5)\ny=(1+2)*3\nz=a-b-c\nu=a-(b+c)*d".as_slice(),
            b"x = 1 + 2 * 3 - (4 - 5)\ny = (1 + 2) * 3\nz = a - b - c\nu = a - (b + c) * d\n".as_slice(),
        ),
        (
            b"x = ((a||b)&&c)||!(d==e)\ny=(a<b)==(c>=d)\nz=a.!=b".as_slice(),
            b"x = (a || b) && c || !(d == e)\ny = (a < b) == (c >= d)\nz = a .!= b\n".as_slice(),
        ),
        (
            b"x = a[i][j] .* -b\ny=(-a)[1]\nz=-a[1]\nw= - ! .!x[-3+0]".as_slice(),
            b"x = a[i][j] .* -b\ny = (-a)[1]\nz = -a[1]\nw = -!.!x[-3 + 0]\n".as_slice(),
        ),
        (
            b"t=read_csv(\"t.csv\",:id,:amount)\nprintln(t.id.&.!m.|(k.&l))".as_slice(),
            b"t = read_csv(\"t.csv\", :id, :amount)\nprintln(t.id .& .!m .| k .& l)\n".as_slice(),
        ),
        (
            b"println(stencil(x->x[-3]+x[3],collect(1:4)))\ny=div.(fill(s,8),8 .-collect(1:n+1))\nf()".as_slice(),
            b"".as_slice(),
        ),
        (
            b"println(stencil(x->x[-3]+x[3],collect(1:4)))\ny=div.(fill(s,8),8 .-collect(1:n+1))\nz=f()".as_slice(),
            b"println(stencil(x -> x[-3] + x[3], collect(1:4)))\ny = div.(fill(s, 8), 8 .- collect(1:n + 1))\nz = f()\n".as_slice(),
        ),
        (
            b"g=filter(f,:v.>4)\nwrite_csv(aggregate(g,:v,total=sum(:v),n=count()))\nx=true!=false".as_slice(),
            b"g = filter(f, :v .> 4)\nwrite_csv(aggregate(g, :v, total = sum(:v), n = count()))\nx = true != false\n".as_slice(),
        ),
        (
            b"if a<1 # one\n\nb=007\n\nelse\n\nwhile a<=b\nif c\nend\nend\nend\n\n".as_slice(),
            b"if a < 1\n    b = 7\nelse\n    while a <= b\n        if c\n        end\n    end\nend\n".as_slice(),
        ),
        (
            b"if true\nx=9223372036854775807\nelse\nend".as_slice(),
            b"if true\n    x = 9223372036854775807\nend\n".as_slice(),
        ),
    ]
    .into_iter()
    .enumerate()
    {
        let round = canonical.is_empty() || reads_as(alloc, canonical, canonical);
        assert!(rt; round, "canonical text {at}");
        let refused = at == 7 && is_refused(alloc, source, 3, 2, Rule::Syntax);
        assert!(rt;
            refused || reads_as(alloc, source, canonical),
            "script {at}"
        );
    }
}

// Scripts of every construct, one after the other, as their canonical text.
const SCRIPTS: &[u8] = b"\
x = fill(3, 10)\n\
println(sum(x))\n\
println(minimum(collect(5:6)))\n\
println(minimum(collect(2:1)))\n\
println(sum(fill(9223372036854775807, 2)))\n\
println(1)\n\
s = sum(fill(1, 8))\n\
y = div.(fill(s, 8), 8 .- collect(1:8))\n\
println(2)\n\
println(stencil(x -> x[-3] + x[3], collect(1:4)))\n\
f = DataFrame(v = collect(1:8))\n\
g = filter(f, :v .> 4)\n\
s = stencil(x -> x[-1] + x[0] + x[1], g.v)\n\
println(s)\n\
h = filter(f, :v .< 5)\n\
println(g.v .+ h.v)\n\
l = read_csv(\"l.csv\", :id, :a)\n\
r = read_csv(\"r.csv\", :id, :b)\n\
j = join(l, r, :id)\n\
write_csv(sort(j, :id))\n\
write_csv(aggregate(j, :id, total = sum(:a), n = count()))\n\
x = fill(1, 4)\n\
y = x .+ 1\n\
println(y[2])\n\
println(7)\n\
while true\n\
end\n\
y = div.(fill(1, 3), fill(0, 3))\n\
println(cumsum(collect(1:3)))\n\
t = read_csv(\"t.csv\", :id, :amount)\n\
s = read_csv(\"sales.csv\", :store, :amount)\n\
d = sort(read_csv(\"stores.csv\", :store, :region), :store)\n\
big = filter(s, :amount .>= 50)\n\
j = join(big, d, :store)\n\
a = aggregate(j, :region, total = sum(:amount), n = count())\n\
write_csv(sort(a, :region))\n\
println(div(-7, 2))\n\
println(rem(-7, 2))\n\
println(rem(-9223372036854775807 - 1, -1))\n\
println(false && div(1, 0) == 0)\n\
println(y)\n\
if true\n    x = 1\n\
end\n\
println(x)\n\
x = true\n\
x = 1 .+ 2\n\
x = foo(1)\n\
x = fill(1)\n\
x = stencil(p -> p[65], fill(1, 3))\n\
d = DataFrame(a = fill(1, 2), a = fill(1, 2))\n\
println(d.b)\n\
println(vcat(collect(1:2), collect(5:7)))\n\
x = collect(1:3)\n\
println(x[collect(2:3)])\n\
a = collect(1:3)\n\
b = fill(2, 3)\n\
m = stack(a, b)\n\
g = m * transpose(m)\n\
println(row(g, 1))\n\
h = g * m\n\
println(row(h, 2))\n\
println(sum(fill(1, 1048577)))\n\
t = read_csv(\"gen.csv\", :id, :v)\n\
f = filter(t, :v .>= 50)\n\
a = aggregate(f, :id, total = sum(:v), n = count())\n\
println(nrow(f))\n\
println(sum(cumsum(f.v)))\n\
z = x .+ y\n\
println(j.b)\n\
g = filter(f, :v .!= 2)\n\
println(sum(j.a .* j.b))\n\
y = div.(x, x .- 1)\n\
println(sum(fill(1, 4) .+ 1))\n";

#[test]
fn canonical_texts_stay(rt: HostRuntime) {
    assert!(rt; reads_as(rt.alloc(), SCRIPTS, SCRIPTS));
}

#[test]
fn refusals(rt: HostRuntime) {
    let alloc = rt.alloc();
    for (at, (source, line, col)) in [
        (b"x = fill(1, 3\n".as_slice(), 1, 14),
        (b"println(1".as_slice(), 1, 10),
        (b"if true\n".as_slice(), 2, 1),
        (b"if true x = 1\nend\n".as_slice(), 1, 9),
        (b"if true\nelse x = 1\nend\n".as_slice(), 2, 6),
        (b"if true\nx = 1 end\n".as_slice(), 2, 7),
        (b"else\n".as_slice(), 1, 1),
        (b"end\n".as_slice(), 1, 1),
        (b"x = 1 y = 2\n".as_slice(), 1, 7),
        (b"x\n".as_slice(), 1, 2),
        (b"x = \n".as_slice(), 1, 5),
        (b"x = a == b == c\n".as_slice(), 1, 12),
        (b"x = a < b .> c\n".as_slice(), 1, 11),
        (b"x = f(a, )\n".as_slice(), 1, 10),
        (b"x = f(a b)\n".as_slice(), 1, 9),
        (b"x = f(a -> )\n".as_slice(), 1, 12),
        (b"x = f(1 -> a)\n".as_slice(), 1, 9),
        (b"x = f(a:b:c)\n".as_slice(), 1, 10),
        (b"x = a.(1\n".as_slice(), 1, 9),
        (b"x = a.1\n".as_slice(), 1, 7),
        (b"x = :1\n".as_slice(), 1, 6),
        (b"x = a[1\n".as_slice(), 1, 8),
        (b"x = (1\n".as_slice(), 1, 7),
        (b"x = + 1\n".as_slice(), 1, 5),
        (b"x = 1 ! 2\n".as_slice(), 1, 7),
        (b"1 = x\n".as_slice(), 1, 1),
        (b"println x\n".as_slice(), 1, 9),
        (b"while true\nx = 1\n".as_slice(), 3, 1),
        (b"x = a -> b\n".as_slice(), 1, 7),
    ]
    .into_iter()
    .enumerate()
    {
        assert!(rt;
            is_refused(alloc, source, line, col, Rule::Syntax),
            "text {at}"
        );
    }
}

/// Whether a text is a script.
fn is_script(alloc: Global, source: &[u8]) -> bool {
    matches!(read(alloc, source), Some(Outcome::Script(_)))
}

#[test]
fn depths(rt: HostRuntime) -> Result<(), Fail> {
    let alloc = rt.alloc();
    // So many parts are deep enough; with one more the token at this column is too deep.
    for (at, (before, part, count, after, col)) in [
        (
            b"x = ".as_slice(),
            b"-".as_slice(),
            64,
            b"1\n".as_slice(),
            69,
        ),
        (
            b"x = 1".as_slice(),
            b"+1".as_slice(),
            64,
            b"\n".as_slice(),
            134,
        ),
        (
            b"x = a".as_slice(),
            b"[1]".as_slice(),
            63,
            b"\n".as_slice(),
            195,
        ),
        (
            b"println(1".as_slice(),
            b"*1".as_slice(),
            63,
            b")\n".as_slice(),
            136,
        ),
    ]
    .into_iter()
    .enumerate()
    {
        let enough = repeated(alloc, before, part, count, after)?;
        assert!(rt; is_script(alloc, &enough), "deep enough {at}");
        let more = repeated(alloc, before, part, count.saturating_add(1), after)?;
        assert!(rt;
            is_refused(alloc, &more, 1, col, Rule::TooDeep),
            "too deep {at}"
        );
    }
    Ok(())
}

// 5 bytes, 32,763 arguments of 2 bytes, and 5 bytes: 65,536 in all.
#[test]
fn long_scripts(rt: HostRuntime) -> Result<(), Fail> {
    let alloc = rt.alloc();
    let long = repeated(alloc, b"x=f(0", b",1", 32_763, b"    )")?;
    assert_eq!(rt; long.len(), 65_536);
    assert!(rt; is_script(alloc, &long));
    Ok(())
}

// A chain of operators is too deep at its 65th.
#[test]
fn long_chains(rt: HostRuntime) -> Result<(), Fail> {
    let alloc = rt.alloc();
    let chain = repeated(alloc, b"x=1", b"+1", 32_766, b"\n")?;
    assert_eq!(rt; chain.len(), 65_536);
    assert!(rt; is_refused(alloc, &chain, 1, 132, Rule::TooDeep));
    Ok(())
}
