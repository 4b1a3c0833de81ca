//! The command line.

ghost use Rattle.std.specs.Prelude.{◌≡◌, option_map, map};
ghost use Rattle.std.specs.List.{list_all};
ghost use Rattle.std.specs.String.{string_bytes};
ghost use Rattle.dpirun.specs.Command as spec;

/// A language of files.
#[derive(Clone, Copy, Debug, PartialEq, Eq)]
pub enum Language {
    /// Files whose names end in `.sv`.
    SystemVerilog,
    /// Files whose names end in `.c`.
    C,
}

/// A command's two files, one of each language.
#[derive(Clone, Copy)]
pub struct Pair<'a> {
    /// The SystemVerilog file, as it was spelled.
    pub sv: &'a str,
    /// The C file, as it was spelled.
    pub c: &'a str,
}

const MOST_FILES: usize = 1000;

fn is_file_of(word: &str, ending: &[u8]) -> bool
    ensures { result ≡ spec.is_file_of ending.now word.now }
{
    word.as_bytes().ends_with(ending) && !word.as_bytes().starts_with(b"-")
}

fn is_file(word: &str) -> bool
    ensures { result ≡ spec.is_file word.now }
{
    is_file_of(word, b".sv") || is_file_of(word, b".c")
}

/// The language of a file of a command, by its name.
pub fn language_of(file: &str) -> Language
    ensures { result ≡ spec.language_of file.now }
{
    if is_file_of(file, b".sv") {
        Language::SystemVerilog
    } else {
        Language::C
    }
}

fn are_files(words: &Vec<String>) -> bool
    ensures { result ≡ list_all (λ word. spec.is_file (string_bytes word)) words.now.items }
{
    words.iter().all(|word| is_file(word.as_str()))
}

/// Whether the words after the program's own name are a command: 1 to 1,000 files, each with a name
/// that ends in `.sv` or `.c` and doesn't begin with `-`.
#[tactic(auto, using(crate::proofs::Commands::is_many_files, crate::proofs::Commands::too_many_or_none))]
pub fn is_command(words: &Vec<String>) -> bool
    ensures { result ≡ spec.is_command (map string_bytes words.now.items) }
{
    match words.len() {
        1..=MOST_FILES => are_files(words),
        _ => false,
    }
}

impl<'a> Pair<'a> {
    /// The pair that the words are: a SystemVerilog file, and then a C file. None for all other
    /// words.
    pub fn of(words: &'a Vec<String>) -> Option<Pair<'a>>
        ensures { option_map (λ p. record { sv = p.sv.now; c = p.c.now }) result
            ≡ spec.pair_of (map string_bytes words.now.items) }
    {
        match words.as_slice() {
            [sv, c] if is_file_of(sv.as_str(), b".sv") && is_file_of(c.as_str(), b".c") => {
                Some(Pair {
                    sv: sv.as_str(),
                    c: c.as_str(),
                })
            }
            _ => None,
        }
    }
}
