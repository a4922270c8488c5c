// The program of the text of a script, and what its steps are called.

use hp_air::air::Air;
use hp_air::node::Node;
use hp_air::what::What;
use hp_normal::normalize::normalize;
use hp_reader::read::read_script;
use std::alloc::Global;

// The program of a script; none where the script is refused.
fn program(alloc: Global, script: &[u8]) -> Option<Air> {
    match read_script(alloc, script) {
        Ok(typed) => normalize(alloc, &typed).ok(),
        Err(_) => None,
    }
}

// The name of an operation.
fn operation(what: &What) -> &'static str {
    match what {
        What::Const { .. } => "Const",
        What::Calc { .. } => "Calc",
        What::Length { .. } => "Length",
        What::Fill { .. } => "Fill",
        What::Range { .. } => "Range",
        What::Read { .. } => "Read",
        What::Copy { .. } => "Copy",
        What::Map { .. } => "Map",
        What::Reduce { .. } => "Reduce",
        What::Scan { .. } => "Scan",
        What::Stencil { .. } => "Stencil",
        What::Filter { .. } => "Filter",
        What::Join { .. } => "Join",
        What::Group { .. } => "Group",
        What::Concat { .. } => "Concat",
        What::Sort { .. } => "Sort",
        What::At { .. } => "At",
        What::Pick { .. } => "Pick",
        What::Frame { .. } => "Frame",
        What::Stack { .. } => "Stack",
        What::Row { .. } => "Row",
        What::Product { .. } => "Product",
        What::ProductT { .. } => "ProductT",
        What::PrintWord { .. } => "PrintWord",
        What::PrintList { .. } => "PrintList",
        What::Export { .. } => "Export",
    }
}

// The name of a step.
fn step(node: &Node) -> &'static str {
    match node {
        Node::Do(op) => operation(&op.what),
        Node::If(_, _, _) => "If",
        Node::While(_, _, _) => "While",
    }
}

// Whether the steps have these names, which have blanks between them.
fn are_named(steps: &[Node], names: &str) -> bool {
    let mut left = names.split(' ');
    for node in steps {
        if left.next() != Some(step(node)) {
            return false;
        }
    }
    left.next().is_none()
}

/// Whether a script becomes a program of these steps, with so many slots.
pub fn becomes(alloc: Global, script: &str, steps: &str, slots: usize) -> bool {
    match program(alloc, script.as_bytes()) {
        Some(air) => air.slots.len() == slots && are_named(air.body.as_slice(), steps),
        None => false,
    }
}
