// The words of the command line.

ghost use Rattle.std.specs.Prelude.{◌≡◌, ◌<◌, ◌≤◌, ◌^◌, IfSome, ◌&&◌, Some, None, map, nat_le, true, if◌then◌else◌, option_and_then};
ghost use Rattle.std.specs.Char.{is_ascii_digit};
ghost use Rattle.std.specs.List.{list_all};
ghost use Rattle.std.specs.Option.{SomeIff, option_map};
ghost use Rattle.std.specs.Str.Parse.{digits_value};
ghost use Rattle.std.specs.String.{string_bytes};
ghost use Rattle.hp_command.specs.Command.{is_number, number_in, asked_by, asked_of_file, asked_with, file_of};
ghost use Rattle.hp_command.specs.AskedFor.{asked_seen, HasRanks};
ghost use Rattle.hp_command.specs.declared.words.Asked.TheVariants.{Seq, Run};

// The loop turns of `seq` where none are given.
const DEFAULT_TURNS: u32 = 16_777_216;

// The most loop turns that can be asked for.
const MOST_TURNS: u32 = 67_108_864;

/// What the words of the command line ask for.
#[derive(Clone, Copy, PartialEq, Eq)]
pub enum Asked {
    /// `check FILE`
    Check,
    /// `seq FILE [--turns T]`, with so many loop turns.
    Seq(u32),
    /// `run FILE --ranks N`, on so many ranks.
    Run(u32),
}

/// What the words of the command line ask for, where they are of a command's form.
pub fn asked_by(words: &[String]) -> Option<Asked>
    ensures asked { option_map asked_seen result ≡ asked_by (map string_bytes words.now) }
    ensures bounds { IfSome result HasRanks }
{
    match words {
        [command, _file] => asked_of_file(command.as_str()),
        [command, _file, option, number] => {
            asked_with(command.as_str(), option.as_str(), number.as_str())
        }
        _ => None,
    }
}

// `check FILE` and `seq FILE`.
fn asked_of_file(command: &str) -> Option<Asked>
    ensures asked { option_map asked_seen result ≡ asked_of_file command.now }
    ensures bounds { IfSome result HasRanks }
{
    if command == "check" {
        Some(Asked::Check)
    } else if command == "seq" {
        Some(Asked::Seq(DEFAULT_TURNS))
    } else {
        None
    }
}

// `seq FILE --turns T` and `run FILE --ranks N`.
fn asked_with(command: &str, option: &str, text: &str) -> Option<Asked>
    ensures asked { option_map asked_seen result ≡ asked_with command.now option.now text.now }
    ensures bounds { IfSome result HasRanks }
{
    if command == "seq" && option == "--turns" {
        turns_of(number(text, 1, MOST_TURNS))
    } else if command == "run" && option == "--ranks" {
        run_on(number(text, 1, 32))
    } else {
        None
    }
}

// An evaluation with so many loop turns.
fn turns_of(turns: Option<u32>) -> Option<Asked>
    ensures { result ≡ option_map Seq turns }
{
    Some(Asked::Seq(turns?))
}

// A run on so many ranks.
fn run_on(ranks: Option<u32>) -> Option<Asked>
    ensures { result ≡ option_map Run ranks }
{
    Some(Asked::Run(ranks?))
}

/// The word FILE, which is the second; empty where there is no second word.
pub fn file_asked(words: &[String]) -> &str
    ensures { result.now ≡ file_of (map string_bytes words.now) }
{
    match words {
        [_, file, ..] => file.as_str(),
        _ => "",
    }
}

// A number of 1 to 20 decimal digits within these bounds.
fn number(text: &str, least: u32, most: u32) -> Option<u32>
    ensures value { result ≡ number_in least most text.now }
    ensures bounds { IfSome result (λ v. (least ≤ v) × (v ≤ most)) }
{
    if is_number_text(text) {
        within(value_of(text), least, most)
    } else {
        None
    }
}

fn is_number_text(text: &str) -> bool
    ensures { result ≡ is_number text.now }
{
    are_digits(text.as_bytes()) && is_short(text.len())
}

fn are_digits(text: &[u8]) -> bool
    ensures { result ≡ list_all is_ascii_digit text.now }
{
    text.iter().all(|b| b.is_ascii_digit())
}

fn is_short(len: usize) -> bool
    ensures { result ≡ (nat_le 1 len && nat_le len 20) }
{
    1 <= len && len <= 20
}

// The value of a number, where it has 32 bits.
fn value_of(text: &str) -> Option<u32>
    requires { is_number text.now ≡ true }
    ensures { SomeIff result (digits_value 10 text.now < 2 ^ 32) (digits_value 10 text.now) }
{
    text.parse::<u32>().ok()
}

fn within(value: Option<u32>, least: u32, most: u32) -> Option<u32>
    ensures value { result ≡ option_and_then (λ v. if nat_le least v && nat_le v most then Some v else None) value }
    ensures bounds { IfSome result (λ v. (least ≤ v) × (v ≤ most)) }
{
    match value {
        Some(v) => {
            if least <= v && v <= most {
                Some(v)
            } else {
                None
            }
        }
        None => None,
    }
}
