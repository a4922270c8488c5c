// The names of the rules, and refusals, as text.

use hp_script::rule::{Refusal, Rule};
use hp_word::place::Place;
use std::test::*;

#[test]
fn rule_names(rt: HostRuntime) -> Result<(), Fail> {
    let line = format!(in rt.alloc(); "{}: {}", 3, Rule::NotBuilt)?;
    assert_eq!(rt; line.as_str(), "3: NotBuilt");
    let line = format!(in rt.alloc(); "{}", Rule::TooLongScript)?;
    assert_eq!(rt; line.as_str(), "TooLongScript");
    Ok(())
}

#[test]
fn refusals(rt: HostRuntime) -> Result<(), Fail> {
    let refusal = Refusal {
        at: Place { line: 3, col: 15 },
        rule: Rule::WrongType,
    };
    let line = format!(in rt.alloc(); "{refusal}")?;
    assert_eq!(rt; line.as_str(), "3:15: WrongType");
    Ok(())
}
