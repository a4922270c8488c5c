// The number that a cell spells.

ghost use Rattle.std.specs.Prelude.{◌≡◌};
ghost use Rattle.hp_tables.specs.Cells.{cell_value};
ghost use Rattle.hp_tables.specs.Running.{numeral_within};

/// The number that decimal digits and nothing else spell, where it is below 2^64.
#[tactic(auto, using(crate::proofs::CellLemmas::cell_steps))]
fn magnitude(digits: &[u8]) -> Option<u64>
    ensures { result ≡ numeral_within digits.now }
{
    if digits.is_empty() {
        return None;
    }
    let mut value = 0u64;
    for digit in digits {
        if !digit.is_ascii_digit() {
            return None;
        }
        value = value
            .checked_mul(10)?
            .checked_add(u64::from(*digit - b'0'))?;
    }
    Some(value)
}

/// The number that a cell spells: decimal digits after an optional minus, of 64 bits.
#[tactic(auto, using(crate::proofs::CellLemmas::signs))]
pub fn number_of(cell: &[u8]) -> Option<i64>
    ensures { result ≡ cell_value cell.now }
{
    if !cell.is_empty() && cell[0] == b'-' {
        0i64.checked_sub_unsigned(magnitude(&cell[1..])?)
    } else {
        0i64.checked_add_unsigned(magnitude(cell)?)
    }
}
