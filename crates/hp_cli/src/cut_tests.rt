// A test of the top call on a script that is cut off at each of its bytes.

use crate::tests::{call, sound};
use hp_word::place::NoMemory;
use std::alloc::Global;

/// Whether a line begins with the place of a byte of the script, or of its end.
fn begins_with_a_place(alloc: Global, script: &[u8], line: &[u8]) -> Result<bool, NoMemory> {
    let (mut row, mut col) = (1u64, 1u64);
    for byte in script {
        let place = format!(in alloc; "{row}:{col}: ")?;
        if line.starts_with(place.as_bytes()) {
            return Ok(true);
        }
        if *byte == b'\n' {
            row = row.saturating_add(1);
            col = 1;
        } else {
            col = col.saturating_add(1);
        }
    }
    let end = format!(in alloc; "{row}:{col}: ")?;
    Ok(line.starts_with(end.as_bytes()))
}

/// Whether a text runs on two ranks, or is refused at a place of its own.
fn runs_or_is_refused(alloc: Global, script: &[u8]) -> Option<bool> {
    let left = call(alloc, &sound(script), "run a.hp --ranks 2").ok()?;
    if left.status == 2 {
        return begins_with_a_place(alloc, script, left.err.bytes()).ok();
    }
    Some(left.status == 0)
}

#[test]
fn cut_anywhere(rt: HostRuntime) {
    let alloc = rt.alloc();
    let script =
        b"x = fill(3, 10) # ten threes\ny = x .+ 2\n\nz = (x) .+ y\nprintln( sum(z) )\nprintln(sum(x))\n".as_slice();
    for size in 0..script.len() {
        assert!(rt;
            runs_or_is_refused(alloc, &script[..size]) == Some(true),
            "after {size} bytes"
        );
    }
}
