// The rules by which a text is no script, and refusals.

use hp_word::place::Place;
use std::fmt;

/// The rules by which a text is refused.
#[derive(Clone, Copy, Debug, PartialEq, Eq)]
pub enum Rule {
    /// More than 65,536 bytes.
    TooLongScript,
    /// A byte that no script has.
    BadByte,
    /// A number that does not fit.
    WideNumber,
    /// Tokens that no script has in this order.
    Syntax,
    /// Blocks or brackets in too many others.
    TooDeep,
    /// A name that nothing assigns.
    UnknownName,
    /// A name that some path does not assign.
    MaybeUnset,
    /// A value of a type that does not fit its use.
    WrongType,
    /// A variable that gets a value of another type.
    TypeChanged,
    /// A column that the frame does not have.
    UnknownColumn,
    /// Two columns of one name in a frame, or one that is named twice.
    DoubleColumn,
    /// A call of what is no function.
    UnknownCall,
    /// A call with too few or too many arguments.
    WrongCount,
    /// A frame with too many columns.
    TooManyColumns,
    /// A stencil that reaches too far.
    ReachTooWide,
    /// A statement of a form that is not built yet.
    NotBuilt,
}

impl fmt::Display for Rule {
    ghost use Rattle.std.specs.Prelude.{Some};
    ghost use Rattle.hp_script.specs.Rules.{rule_name};

    ghost output = { λ rule. Some (rule_name rule) };

    fn fmt<W: fmt::Write>(&self, f: &mut fmt::Formatter<W>) -> fmt::Result {
        match self {
            Rule::TooLongScript => f.write_str("TooLongScript"),
            Rule::BadByte => f.write_str("BadByte"),
            Rule::WideNumber => f.write_str("WideNumber"),
            Rule::Syntax => f.write_str("Syntax"),
            Rule::TooDeep => f.write_str("TooDeep"),
            Rule::UnknownName => f.write_str("UnknownName"),
            Rule::MaybeUnset => f.write_str("MaybeUnset"),
            Rule::WrongType => f.write_str("WrongType"),
            Rule::TypeChanged => f.write_str("TypeChanged"),
            Rule::UnknownColumn => f.write_str("UnknownColumn"),
            Rule::DoubleColumn => f.write_str("DoubleColumn"),
            Rule::UnknownCall => f.write_str("UnknownCall"),
            Rule::WrongCount => f.write_str("WrongCount"),
            Rule::TooManyColumns => f.write_str("TooManyColumns"),
            Rule::ReachTooWide => f.write_str("ReachTooWide"),
            Rule::NotBuilt => f.write_str("NotBuilt"),
        }
    }
}

/// Why and where a text is no script.
#[derive(Clone, Copy, Debug, PartialEq, Eq)]
pub struct Refusal {
    pub at: Place,
    pub rule: Rule,
}

impl fmt::Display for Refusal {
    ghost use Rattle.std.specs.Prelude.{Some};
    ghost use Rattle.hp_script.specs.Rules.{refusal_text};

    ghost output = { λ refusal. Some (refusal_text refusal) };

    fn fmt<W: fmt::Write>(&self, f: &mut fmt::Formatter<W>) -> fmt::Result {
        write!(f, "{}:{}: {}", self.at.line, self.at.col, self.rule)
    }
}
