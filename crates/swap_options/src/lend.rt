ghost use Rattle.std.specs.Prelude.{◌≡◌, map, true, [], Some, None, IfOk, IfErr, option_map, option_and_then};
ghost use Rattle.clap.specs.Words.{app_of, rows_of, found_of};
ghost use Rattle.swap_sock.specs.Addresses.{address_in};
ghost use Rattle.swap_options.specs.Lend.{lend_command, number_of, number_at, spec_in, options_in, options_of, keeps_limits, lend_faults, lend_rows, lend_options};

use crate::MOST_SERVED;
use crate::parsing::{OptionsRefused, bare_command, defaulted, option, parsed, text_at};
use clap::{ArgMatches, Command};
use std::alloc::{AllocError, Global};
use swap_base::{LenderSpec, MOST_LENT_BYTES, MOST_SLOTS};
use swap_io::number;
use swap_sock::Address;

/// Where a lender listens, and what it lends: its slots, how many bytes a page and how many pages a
/// slab has, how many links it serves, and how many slots its host uses itself.
#[derive(Clone, Copy, Debug, PartialEq, Eq)]
pub struct LendOptions {
    pub listen: Address,
    pub spec: LenderSpec,
    pub page_bytes: u32,
    pub pages_per_slab: u32,
    pub links: u32,
    pub used: u32,
}

/// Reads the words behind `lend`: `--listen ADDRESS` and, each once and with its number in decimal
/// without leading zeros, `--slots`, `--headroom`, `--extra`, `--page-bytes`, `--pages-per-slab`,
/// `--links` and `--used`.
///
/// There are 1 to 64 slots, up to 64 of headroom and up to 64 extra; a page has a power of two of 8
/// to 4,096 bytes, a slab 1 to 65,536 pages, and all slots hold at most 536,870,912 bytes; up to 64
/// links are served. `Usage` comes only where the words give no options; want of memory has no
/// further cause.
#[tactic(auto, using(crate::proofs::Reading::given))]
pub fn read_lend(alloc: Global, words: &[&str]) -> Result<LendOptions, OptionsRefused>
    ensures options { IfOk result
        (λ options. lend_options (map (λ word. word.now) words.now) ≡ Some options) }
    ensures limits { IfOk result (λ options. keeps_limits options ≡ true) }
    ensures usage { IfErr result
        (λ why. why ≡ OptionsRefused.Usage
        → lend_options (map (λ word. word.now) words.now) ≡ None) }
{
    let matches = lend_matches(alloc, words)?;
    match options_in(&matches) {
        Some(options) if keeps_limits(&options) => Ok(options),
        _ => Err(OptionsRefused::Usage),
    }
}

/// What the command behind `lend` makes of the words.
fn lend_matches<'a>(alloc: Global, words: &'a [&'a str]) -> Result<ArgMatches<'a>, OptionsRefused>
    ensures faultless { IfOk result (λ m. lend_faults (map (λ word. word.now) words.now) ≡ []) }
    ensures matches { IfOk result
        (λ m. rows_of (found_of m) ≡ lend_rows (map (λ word. word.now) words.now)) }
    ensures usage { IfErr result
        (λ why. why ≡ OptionsRefused.Usage
        → lend_options (map (λ word. word.now) words.now) ≡ None) }
{
    match lend_command(alloc) {
        Ok(command) => parsed(command, words),
        Err(_) => Err(OptionsRefused::NoMemory),
    }
}

/// The command behind `lend`, without flags for help or a version.
fn lend_command<'a>(alloc: Global) -> Result<Command<'a>, AllocError>
    ensures { IfOk result (λ c. app_of c ≡ lend_command) }
{
    bare_command(alloc, "lend")
        .arg(option(alloc, "listen").required(true))?
        .arg(defaulted(alloc, "slots", "16"))?
        .arg(defaulted(alloc, "headroom", "2"))?
        .arg(defaulted(alloc, "extra", "2"))?
        .arg(defaulted(alloc, "page-bytes", "4096"))?
        .arg(defaulted(alloc, "pages-per-slab", "1024"))?
        .arg(defaulted(alloc, "links", "1"))?
        .arg(defaulted(alloc, "used", "0"))
}

fn number_of(text: Option<&str>) -> Option<u32>
    ensures { result ≡ number_of (option_map (λ text. text.now) text.entry) }
{
    let n = number(text?.as_bytes())?;
    if n <= 4_294_967_295 {
        Some(n as u32)
    } else {
        None
    }
}

fn address_of(text: Option<&str>) -> Option<Address>
    ensures { result ≡ option_and_then address_in (option_map (λ text. text.now) text.entry) }
{
    Address::read(text?)
}

fn number_at(matches: &ArgMatches, name: &str) -> Option<u32>
    ensures { result ≡ number_at name.now (rows_of (found_of matches.now)) }
{
    number_of(text_at(matches, name))
}

fn spec_in(matches: &ArgMatches) -> Option<LenderSpec>
    ensures { result ≡ spec_in (rows_of (found_of matches.now)) }
{
    Some(LenderSpec {
        slots: number_at(matches, "slots")?,
        headroom: number_at(matches, "headroom")?,
        extra: number_at(matches, "extra")?,
    })
}

fn options_of(
    listen: Option<Address>,
    spec: Option<LenderSpec>,
    page_bytes: Option<u32>,
    pages_per_slab: Option<u32>,
    links: Option<u32>,
    used: Option<u32>,
) -> Option<LendOptions>
    ensures { result ≡ options_of listen spec page_bytes pages_per_slab links used }
{
    Some(LendOptions {
        listen: listen?,
        spec: spec?,
        page_bytes: page_bytes?,
        pages_per_slab: pages_per_slab?,
        links: links?,
        used: used?,
    })
}

fn options_in(matches: &ArgMatches) -> Option<LendOptions>
    ensures { result ≡ options_in (rows_of (found_of matches.now)) }
{
    options_of(
        address_of(text_at(matches, "listen")),
        spec_in(matches),
        number_at(matches, "page-bytes"),
        number_at(matches, "pages-per-slab"),
        number_at(matches, "links"),
        number_at(matches, "used"),
    )
}

fn keeps_limits(options: &LendOptions) -> bool
    ensures { result ≡ keeps_limits options.now }
{
    let spec = options.spec;
    1 <= spec.slots
        && spec.slots <= MOST_SLOTS
        && spec.headroom <= MOST_SLOTS
        && spec.extra <= MOST_SLOTS
        && matches!(
            options.page_bytes,
            8 | 16 | 32 | 64 | 128 | 256 | 512 | 1024 | 2048 | 4096
        )
        && 1 <= options.pages_per_slab
        && options.pages_per_slab <= 65_536
        && u64::from(spec.slots * options.pages_per_slab) * u64::from(options.page_bytes)
            <= MOST_LENT_BYTES
        && options.links <= MOST_SERVED
}
