ghost use Rattle.std.specs.Prelude.{◌≡◌, ◌≤◌, map, length, ◌==◌, [], Some, None, IfOk, IfErr, IfSome, option_map, option_and_then};
ghost use Rattle.std.specs.List.{slice_split};
ghost use Rattle.clap.specs.Words.{app_of, rows_of, found_of};
ghost use Rattle.swap_io.specs.Words.{number};
ghost use Rattle.swap_options.specs.Play.{play_command, play_faults, play_rows, play_options, play_asked, comma, addresses_of, addresses_in, addresses_given, options_in};
ghost use Rattle.swap_base.specs.declared.TheConstants.{MOST_LENDERS};

use crate::parsing::{OptionsRefused, bare_command, defaulted, option, parsed, text_at};
use clap::{ArgMatches, Command};
use std::alloc::{AllocError, Global};
use swap_base::MOST_LENDERS;
use swap_io::number;
use swap_sock::Address;

/// What a trace is played with: the number that its draws come from, the path of the disk's file,
/// and the lenders' addresses, where they are given.
#[derive(Debug, Drop)]
pub struct PlayOptions<'a> {
    pub number: u64,
    pub disk: Option<&'a str>,
    pub tcp: Option<Vec<Address>>,
}

/// Reads the words behind `play`, each option at most once: `--number` with a number in decimal
/// without leading zeros, `--disk` with any text, and `--tcp` with 1 to 8 addresses parted by
/// commas.
///
/// `Usage` comes only where the words give no options; want of memory has no further cause.
pub fn read_play<'a>(alloc: Global, words: &'a [&'a str]) -> Result<PlayOptions<'a>, OptionsRefused>
    ensures options { IfOk result
        (λ options. play_options (map (λ word. word.now) words.now) ≡ Some (play_asked options)) }
    ensures lenders { IfOk result
        (λ options.
        IfSome options.tcp
        (λ lenders. (1 ≤ length lenders.items) × (length lenders.items ≤ MOST_LENDERS))) }
    ensures usage { IfErr result
        (λ why. why ≡ OptionsRefused.Usage
        → play_options (map (λ word. word.now) words.now) ≡ None) }
{
    let matches = play_matches(alloc, words)?;
    options_in(alloc, &matches)
}

/// What the values spell.
fn options_in<'a>(
    alloc: Global,
    matches: &ArgMatches<'a>,
) -> Result<PlayOptions<'a>, OptionsRefused>
    ensures options { IfOk result
        (λ options. options_in (rows_of (found_of matches.now)) ≡ Some (play_asked options)) }
    ensures lenders { IfOk result
        (λ options.
        IfSome options.tcp
        (λ lenders. (1 ≤ length lenders.items) × (length lenders.items ≤ MOST_LENDERS))) }
    ensures usage { IfErr result
        (λ why. why ≡ OptionsRefused.Usage → options_in (rows_of (found_of matches.now)) ≡ None) }
{
    let Some(number) = number_of(text_at(matches, "number")) else {
        return Err(OptionsRefused::Usage);
    };
    let tcp = addresses_given(alloc, text_at(matches, "tcp"))?;
    Ok(PlayOptions {
        number,
        disk: text_at(matches, "disk"),
        tcp,
    })
}

/// What the command behind `play` makes of the words.
fn play_matches<'a>(alloc: Global, words: &'a [&'a str]) -> Result<ArgMatches<'a>, OptionsRefused>
    ensures faultless { IfOk result (λ m. play_faults (map (λ word. word.now) words.now) ≡ []) }
    ensures matches { IfOk result
        (λ m. rows_of (found_of m) ≡ play_rows (map (λ word. word.now) words.now)) }
    ensures usage { IfErr result
        (λ why. why ≡ OptionsRefused.Usage
        → play_options (map (λ word. word.now) words.now) ≡ None) }
{
    match play_command(alloc) {
        Ok(command) => parsed(command, words),
        Err(_) => Err(OptionsRefused::NoMemory),
    }
}

/// The command behind `play`, without flags for help or a version.
fn play_command<'a>(alloc: Global) -> Result<Command<'a>, AllocError>
    ensures { IfOk result (λ c. app_of c ≡ play_command) }
{
    bare_command(alloc, "play")
        .arg(defaulted(alloc, "number", "1"))?
        .arg(option(alloc, "disk"))?
        .arg(option(alloc, "tcp"))
}

fn number_of(text: Option<&str>) -> Option<u64>
    ensures { result ≡ option_and_then number (option_map (λ text. text.now) text.entry) }
{
    number(text?.as_bytes())
}

/// The addresses that a value spells, where it is given.
fn addresses_given(
    alloc: Global,
    text: Option<&str>,
) -> Result<Option<Vec<Address>>, OptionsRefused>
    ensures lists { IfOk result
        (λ given. addresses_given (option_map (λ text. text.now) text.entry)
        ≡ Some (option_map (λ list. list.items) given)) }
    ensures few { IfOk result
        (λ given. IfSome given (λ list. (1 ≤ length list.items)
        × (length list.items ≤ MOST_LENDERS))) }
    ensures usage { IfErr result
        (λ why. why ≡ OptionsRefused.Usage
        → addresses_given (option_map (λ text. text.now) text.entry) ≡ None) }
{
    match text {
        None => Ok(None),
        Some(text) => match addresses_in(alloc, text) {
            Ok(list) => Ok(Some(list)),
            Err(why) => Err(why),
        },
    }
}

/// The addresses, 1 to 8 of them, that commas part.
fn addresses_in(alloc: Global, text: &str) -> Result<Vec<Address>, OptionsRefused>
    ensures list { IfOk result (λ list. addresses_in text.now ≡ Some list.items) }
    ensures few { IfOk result (λ list. (1 ≤ length list.items)
        × (length list.items ≤ MOST_LENDERS)) }
    ensures usage { IfErr result
        (λ why. why ≡ OptionsRefused.Usage → addresses_in text.now ≡ None) }
{
    let Ok(parts) = parts_of(alloc, text) else {
        return Err(OptionsRefused::NoMemory);
    };
    if parts.len() > MOST_LENDERS as usize {
        return Err(OptionsRefused::Usage);
    }
    addresses_of(alloc, &parts)
}

fn parts_of(alloc: Global, text: &str) -> Result<Vec<&str>, AllocError>
    ensures parts { IfOk result
        (λ parts. map (λ part. part.now) parts.items ≡ slice_split (λ b. b == comma) text.now) }
    ensures some { IfOk result (λ parts. 1 ≤ length parts.items) }
{
    text.split(',').collect(alloc)
}

fn addresses_of(alloc: Global, parts: &[&str]) -> Result<Vec<Address>, OptionsRefused>
    ensures list { IfOk result
        (λ list. addresses_of (map (λ part. part.now) parts.now) ≡ Some list.items) }
    ensures number { IfOk result (λ list. length list.items ≡ length parts.now) }
    ensures usage { IfErr result
        (λ why. why ≡ OptionsRefused.Usage
        → addresses_of (map (λ part. part.now) parts.now) ≡ None) }
{
    let mut list = Vec::new(alloc);
    'parts: for part in parts {
        let Some(address) = Address::read(part) else {
            return Err(OptionsRefused::Usage);
        };
        if list.push(address).is_err() {
            return Err(OptionsRefused::NoMemory);
        }
    }
    Ok(list)
}
