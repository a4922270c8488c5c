// Tests of scripts that are made to be as large as they may be, and larger: their columns, bytes and depth.

use crate::checking::says;
use hp_word::place::NoMemory;
use hp_worked::repeated;
use std::alloc::Global;
use std::test::Fail;

/// Arguments `, KIND1` to `, KINDn`, each with its number, behind a text and before another.
fn numbered(
    alloc: Global,
    before: &str,
    kind: &str,
    count: usize,
    value: &str,
    behind: &str,
) -> Result<Vec<u8>, NoMemory> {
    let mut script = Vec::from_slice(alloc, before.as_bytes())?;
    for i in 1..=count {
        let next = format!(in alloc; ", {kind}{i}{value}")?;
        script.extend_from_slice(next.as_bytes())?;
    }
    script.extend_from_slice(behind.as_bytes())?;
    Ok(script)
}

/// A script with many arguments, as `numbered` makes it.
#[derive(Clone, Copy)]
struct Wide {
    before: &'static str,
    kind: &'static str,
    value: &'static str,
}

const READ: Wide = Wide {
    before: "x = read_csv(\"t.csv\"",
    kind: ":c",
    value: "",
};

const FRAME: Wide = Wide {
    before: "v = fill(1, 1)\nx = DataFrame(c = v",
    kind: "c",
    value: " = v",
};

const AGGREGATE: Wide = Wide {
    before: "d = DataFrame(k = fill(1, 1))\nx = aggregate(d, :k, n = count()",
    kind: "c",
    value: " = count()",
};

/// Whether this line is said of a script with so many arguments.
fn says_wide(alloc: Global, wide: Wide, count: usize, line: &str) -> Result<bool, NoMemory> {
    let script = numbered(alloc, wide.before, wide.kind, count, wide.value, ")\n")?;
    says(alloc, &script, line)
}

#[test]
fn many_columns(rt: HostRuntime) -> Result<(), Fail> {
    let alloc = rt.alloc();
    for (wide, count, line) in [
        (READ, 1024, "ok\n"),
        (READ, 1025, "1:5: TooManyColumns\n"),
        (FRAME, 1023, "ok\n"),
        (FRAME, 1024, "2:5: TooManyColumns\n"),
        (AGGREGATE, 1022, "ok\n"),
        (AGGREGATE, 1023, "2:5: TooManyColumns\n"),
    ] {
        assert!(rt; says_wide(alloc, wide, count, line)?, "{count} columns");
    }
    Ok(())
}

/// A join of a table of 601 columns with one of so many besides the key.
fn join(alloc: Global, count: usize) -> Result<Vec<u8>, NoMemory> {
    let mut script = numbered(alloc, "x = read_csv(\"t.csv\", :k", ":c", 600, "", ")\n")?;
    let behind = ")\nz = join(x, y, :k)\n";
    let joined = numbered(alloc, "y = read_csv(\"u.csv\", :k", ":d", count, "", behind)?;
    script.extend_from_slice(joined.as_slice())?;
    Ok(script)
}

#[test]
fn many_joined_columns(rt: HostRuntime) -> Result<(), Fail> {
    let alloc = rt.alloc();
    for (count, line) in [(423, "ok\n"), (424, "3:5: TooManyColumns\n")] {
        assert!(rt; says(alloc, &join(alloc, count)?, line)?, "{count} columns");
    }
    Ok(())
}

/// Whether this line is said of so many blanks.
fn blanks_say(alloc: Global, size: usize, line: &str) -> Result<bool, NoMemory> {
    let script = vec![in alloc; b' '; size]?;
    says(alloc, &script, line)
}

#[test]
fn blanks(rt: HostRuntime) -> Result<(), Fail> {
    let alloc = rt.alloc();
    for (size, line) in [
        (65_536, "ok\n"),
        (65_537, "1:1: TooLongScript\n"),
        (65_538, "1:1: TooLongScript\n"),
    ] {
        assert!(rt; blanks_say(alloc, size, line)?, "of {size} bytes");
    }
    Ok(())
}

/// Whether this line is said of `x = `, so many brackets around a 1, and a newline.
fn brackets_say(alloc: Global, brackets: usize, line: &str) -> Result<bool, NoMemory> {
    let left = repeated(alloc, b"x = ", b"(", brackets, b"1")?;
    let script = repeated(alloc, &left, b")", brackets, b"\n")?;
    says(alloc, &script, line)
}

#[test]
fn brackets(rt: HostRuntime) -> Result<(), Fail> {
    let alloc = rt.alloc();
    for (count, line) in [(64, "ok\n"), (65, "1:69: TooDeep\n")] {
        assert!(rt; brackets_say(alloc, count, line)?, "{count} brackets");
    }
    Ok(())
}
