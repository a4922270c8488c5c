// The functions that a script can call.

ghost use Rattle.std.specs.Prelude.{◌≡◌};
ghost use Rattle.hp_script.specs.Functions.{scalar_named, fold_named, array_named, frame_named, function_named, takes_count};

use hp_word::fold::FoldKind;

/// The functions of two numbers; dotted, they go element by element.
#[derive(Clone, Copy, Debug, PartialEq, Eq)]
pub enum ScalarFunction {
    Div,
    Rem,
    Min,
    Max,
}

/// What a script can call by a name.
#[derive(Clone, Copy, Debug, PartialEq, Eq)]
pub enum Function {
    /// `div`, `rem`, `min` and `max`
    Scalar(ScalarFunction),
    /// `sum`, `prod`, `minimum`, `maximum`, `any` and `all`
    Fold(FoldKind),
    Count,
    Length,
    Fill,
    Collect,
    Cumsum,
    Map,
    Stencil,
    Vcat,
    DataFrame,
    ReadCsv,
    Nrow,
    Filter,
    Join,
    Aggregate,
    Sort,
    Stack,
    Row,
    Transpose,
}

/// The scalar function of a name.
#[tactic(auto, unfolding(crate::specs::Functions::scalar_named))]
fn scalar_of(name: &[u8]) -> Option<ScalarFunction>
    ensures { result ≡ scalar_named name.now }
{
    if name == b"div".as_slice() {
        Some(ScalarFunction::Div)
    } else if name == b"rem".as_slice() {
        Some(ScalarFunction::Rem)
    } else if name == b"min".as_slice() {
        Some(ScalarFunction::Min)
    } else if name == b"max".as_slice() {
        Some(ScalarFunction::Max)
    } else {
        None
    }
}

/// The fold of a name.
#[tactic(auto, unfolding(crate::specs::Functions::fold_named))]
fn fold_of(name: &[u8]) -> Option<FoldKind>
    ensures { result ≡ fold_named name.now }
{
    if name == b"sum".as_slice() {
        Some(FoldKind::Sum)
    } else if name == b"prod".as_slice() {
        Some(FoldKind::Prod)
    } else if name == b"minimum".as_slice() {
        Some(FoldKind::Min)
    } else if name == b"maximum".as_slice() {
        Some(FoldKind::Max)
    } else if name == b"any".as_slice() {
        Some(FoldKind::Any)
    } else if name == b"all".as_slice() {
        Some(FoldKind::All)
    } else {
        None
    }
}

/// The function of arrays and matrices of a name.
#[tactic(auto, unfolding(crate::specs::Functions::array_named))]
fn array_function_of(name: &[u8]) -> Option<Function>
    ensures { result ≡ array_named name.now }
{
    if name == b"count".as_slice() {
        Some(Function::Count)
    } else if name == b"length".as_slice() {
        Some(Function::Length)
    } else if name == b"fill".as_slice() {
        Some(Function::Fill)
    } else if name == b"collect".as_slice() {
        Some(Function::Collect)
    } else if name == b"cumsum".as_slice() {
        Some(Function::Cumsum)
    } else if name == b"map".as_slice() {
        Some(Function::Map)
    } else if name == b"stencil".as_slice() {
        Some(Function::Stencil)
    } else if name == b"vcat".as_slice() {
        Some(Function::Vcat)
    } else if name == b"stack".as_slice() {
        Some(Function::Stack)
    } else if name == b"row".as_slice() {
        Some(Function::Row)
    } else if name == b"transpose".as_slice() {
        Some(Function::Transpose)
    } else {
        None
    }
}

/// The function of frames of a name.
#[tactic(auto, unfolding(crate::specs::Functions::frame_named))]
fn frame_function_of(name: &[u8]) -> Option<Function>
    ensures { result ≡ frame_named name.now }
{
    if name == b"DataFrame".as_slice() {
        Some(Function::DataFrame)
    } else if name == b"read_csv".as_slice() {
        Some(Function::ReadCsv)
    } else if name == b"nrow".as_slice() {
        Some(Function::Nrow)
    } else if name == b"filter".as_slice() {
        Some(Function::Filter)
    } else if name == b"join".as_slice() {
        Some(Function::Join)
    } else if name == b"aggregate".as_slice() {
        Some(Function::Aggregate)
    } else if name == b"sort".as_slice() {
        Some(Function::Sort)
    } else {
        None
    }
}

/// The function of a name, dotted or not; a dotted one is a scalar function.
#[tactic(auto, unfolding(crate::specs::Functions::function_named))]
pub fn function_of(name: &[u8], dotted: bool) -> Option<Function>
    ensures { result ≡ function_named dotted name.now }
{
    if let Some(scalar) = scalar_of(name) {
        return Some(Function::Scalar(scalar));
    }
    if dotted {
        return None;
    }
    if let Some(fold) = fold_of(name) {
        return Some(Function::Fold(fold));
    }
    if let Some(function) = array_function_of(name) {
        return Some(function);
    }
    frame_function_of(name)
}

impl Function {
    /// Whether a call of the function can have so many arguments.
    pub fn takes(self, count: usize) -> bool
        ensures { result ≡ takes_count self count }
    {
        match self {
            Function::DataFrame | Function::Stack => count >= 1,
            Function::ReadCsv => count >= 2,
            Function::Aggregate => count >= 3,
            Function::Join => count == 3,
            Function::Scalar(_)
            | Function::Fill
            | Function::Map
            | Function::Stencil
            | Function::Vcat
            | Function::Filter
            | Function::Sort
            | Function::Row => count == 2,
            Function::Fold(_)
            | Function::Count
            | Function::Length
            | Function::Collect
            | Function::Cumsum
            | Function::Nrow
            | Function::Transpose => count == 1,
        }
    }
}
