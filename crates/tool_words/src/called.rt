//! What the program was called as, and the words of the call.
ghost use Rattle.std.specs.Prelude.{◌≡◌, IfOk, map, string_bytes};
ghost use Rattle.std.specs.Option.{option_copied};
ghost use Rattle.tool_words.specs.Called.{called_as, called_by, flag_meant, is_tool, last_part, name_of, spelled, words_called};

use std::alloc::AllocError;

/// What the program was called as.
#[derive(Clone, Copy, Debug, PartialEq, Eq)]
pub enum CalledAs {
    /// As `ubtool`, or by any name that is not one of U-Boot's tools.
    Ubtool,
    /// As U-Boot's `fw_printenv`.
    FwPrintenv,
    /// As U-Boot's `fw_setenv`.
    FwSetenv,
}

impl CalledAs {
    /// The name of the program, in usage lines and in front of what it reports.
    pub fn name(self) -> &'static str
        ensures { result.now ≡ name_of self }
    {
        match self {
            CalledAs::Ubtool => "ubtool",
            CalledAs::FwPrintenv => "fw_printenv",
            CalledAs::FwSetenv => "fw_setenv",
        }
    }

    /// Whether this is one of U-Boot's tools.
    pub fn is_tool(self) -> bool
        ensures { result ≡ is_tool self }
    {
        match self {
            CalledAs::Ubtool => false,
            CalledAs::FwPrintenv | CalledAs::FwSetenv => true,
        }
    }
}

/// What is after the last slash of a path, or all of the path.
fn last_part(path: &[u8]) -> &[u8]
    ensures { result.now ≡ last_part path.now }
{
    match path.iter().rposition(|&byte| byte == b'/') {
        Some(slash) => &path[slash + 1..],
        None => path,
    }
}

/// What a program of this name is called as.
fn called_by(name: &[u8]) -> CalledAs
    ensures { result ≡ called_by name.now }
{
    if name == b"fw_printenv".as_slice() {
        CalledAs::FwPrintenv
    } else if name == b"fw_setenv".as_slice() {
        CalledAs::FwSetenv
    } else {
        CalledAs::Ubtool
    }
}

/// What the program was called as, from the path by which it was called and the words after it.
pub fn called_as(args: &[String]) -> CalledAs
    ensures { result ≡ called_as (map string_bytes args.now) }
{
    match args.first() {
        Some(path) => called_by(last_part(path.as_bytes())),
        None => CalledAs::Ubtool,
    }
}

/// The flag that a word alone means: `help` and `version` are `--help` and `--version`.
fn flag_meant(word: &[u8]) -> Option<&'static str>
    ensures { option_copied result ≡ flag_meant word.now }
{
    if word == b"help".as_slice() {
        Some("--help")
    } else if word == b"version".as_slice() {
        Some("--version")
    } else {
        None
    }
}

/// The words as `clap` knows them: `help` and `version`, each alone, are flags, and `help NAME` is
/// `NAME --help`. All others stay as they are. Errors: memory ran out.
fn spelled(mut words: Vec<String>) -> Result<Vec<String>, AllocError>
    ensures { IfOk result (λ new. map string_bytes new.items
        ≡ spelled (map string_bytes words.items)) }
{
    if words.len() == 1 {
        if let Some(flag) = flag_meant(words[0].as_bytes()) {
            words[0] = String::from_str(*words.allocator(), flag)?;
        }
    } else if words.len() == 2 && words[0].as_str() == "help" {
        words.remove(0);
        words.push(String::from_str(*words.allocator(), "--help")?)?;
    }
    Ok(words)
}

/// The words that the program reads, from the path by which it was called and the words after it.
/// Called as `fw_printenv` it is `printenv`, and called as `fw_setenv` it is `setenv`. By any other
/// name `help` and `version` are words too, as `spelled` says. Errors: memory ran out.
pub fn words_called(mut args: Vec<String>) -> Result<Vec<String>, AllocError>
    ensures { IfOk result (λ words. map string_bytes words.items
        ≡ words_called (map string_bytes args.items)) }
{
    let called = called_as(&args);
    if args.is_empty() {
        return Ok(args);
    }
    match called {
        CalledAs::Ubtool => {
            args.remove(0);
            spelled(args)
        }
        CalledAs::FwPrintenv => {
            args[0] = String::from_str(*args.allocator(), "printenv")?;
            Ok(args)
        }
        CalledAs::FwSetenv => {
            args[0] = String::from_str(*args.allocator(), "setenv")?;
            Ok(args)
        }
    }
}
