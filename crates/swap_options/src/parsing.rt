ghost use Rattle.std.specs.Prelude.{◌≡◌, map, true, false, [], IfOk, IfErr, option_map};
ghost use Rattle.clap.specs.Words.{app_of, rule_of, rows_of, found_of, first_of, fault_of, matches_of, is_simple, is_simple_and_free};
ghost use Rattle.swap_options.specs.Commands.{bare_command, option_rule, with_default, IsAtFault};

use clap::error::ErrorKind;
use clap::{Arg, ArgMatches, Command};
use std::alloc::Global;

/// Why words gave no options: they aren't of the command's form, or memory ran out.
#[derive(Clone, Copy, Debug, PartialEq, Eq)]
pub enum OptionsRefused {
    Usage,
    NoMemory,
}

/// A command of which all words are arguments, without flags for help or a version.
pub(crate) fn bare_command<'a>(alloc: Global, name: &'a str) -> Command<'a>
    ensures { app_of result ≡ bare_command name.entry.now }
{
    Command::new(alloc, name)
        .no_binary_name(true)
        .disable_help_flag(true)
}

/// An option with one value.
pub(crate) fn option<'a>(alloc: Global, name: &'a str) -> Arg<'a>
    ensures rule { rule_of result ≡ option_rule name.entry.now }
    ensures local { result.global ≡ false }
{
    Arg::new(alloc, name).long(name)
}

/// An option with the value that it has where it isn't given.
pub(crate) fn defaulted<'a>(alloc: Global, name: &'a str, value: &'a str) -> Arg<'a>
    ensures rule { rule_of result ≡ with_default name.entry.now value.entry.now }
    ensures local { result.global ≡ false }
{
    option(alloc, name).default_value(value)
}

/// What a simple command makes of the words.
pub(crate) fn parsed<'a>(
    command: Command<'a>,
    words: &'a [&'a str],
) -> Result<ArgMatches<'a>, OptionsRefused>
    requires simple { is_simple (app_of command) ≡ true }
    requires free { is_simple_and_free (app_of command) ≡ true }
    ensures faultless { IfOk result
        (λ m. fault_of (app_of command.entry) (map (λ word. word.now) words.now) ≡ []) }
    ensures matches { IfOk result
        (λ m. rows_of (found_of m)
        ≡ matches_of (app_of command.entry) (map (λ word. word.now) words.now)) }
    ensures usage { IfErr result
        (λ why. why ≡ OptionsRefused.Usage
        → IsAtFault (fault_of (app_of command.entry) (map (λ word. word.now) words.now))) }
{
    match command.try_get_matches_from(words) {
        Ok(matches) => Ok(matches),
        Err(error) => match error.kind() {
            ErrorKind::OutOfMemory => Err(OptionsRefused::NoMemory),
            _ => Err(OptionsRefused::Usage),
        },
    }
}

/// The value of an option.
pub(crate) fn text_at<'a>(matches: &ArgMatches<'a>, name: &str) -> Option<&'a str>
    ensures { option_map (λ text. text.now) result
        ≡ first_of name.now (rows_of (found_of matches.now)) }
{
    matches.get_str(name)
}
