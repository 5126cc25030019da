//! The words of a command, and what they ask for.

ghost use Rattle.std.specs.Prelude.{◌≡◌, ◌≢◌, ℕ, ◌<◌, length, IfSome, IfNone, IsTrue, ◌↔◌};
ghost use Rattle.flk_num.specs.declared.lamp.Lamp.{Lamp as LampView};
ghost use Rattle.flk_num.specs.declared.rate.Rate.{Rate as RateView};
ghost use Rattle.flk_job.specs.Table.{lamp_name};
ghost use Rattle.flk_top.specs.Command.{IsNumber, IsNumberIn, IsLevels, IsCheck, AsksRate, IsTables, AreReportNames, IsReport, IsGen, Asks, IsNoCommand};
ghost use Rattle.flk_top.specs.declared.command.Command.TheVariants as commands;

use flk_io::Words;
use flk_num::{Lamp, Rate};
use flk_scale::Supply;

/// What `levels` is asked for, beside the names of its two files.
#[derive(Clone, Copy, Debug)]
pub struct LevelsCommand {
    /// The channel, from 1 to 256.
    pub channel: u32,
    pub supply: Supply,
}

/// What `report` is asked for, beside the names of its three files.
#[derive(Clone, Copy, Debug)]
pub struct ReportCommand {
    /// In how many parts the channels are worked side by side, from 1 to 16. The answer is the same for each.
    pub workers: u32,
}

/// What `gen` is asked for, beside the names of its two files.
#[derive(Clone, Copy, Debug)]
pub struct GenCommand {
    /// The number from which the draws come.
    pub seed: u32,
    /// How long the recording is, from 1 to 8000.
    pub seconds: u32,
}

/// What the words ask for.
#[derive(Clone, Copy, Debug)]
pub enum Command {
    Levels(LevelsCommand),
    Check,
    /// The tables of a lamp at a sampling rate.
    Tables(Lamp, Rate),
    Report(ReportCommand),
    Gen(GenCommand),
}

/// The name of the configuration, and the name of the data.
pub const CONFIGURATION_WORD: usize = 1;

pub const DATA_WORD: usize = 2;

/// The names of a report's job, configuration and data.
pub const JOB_WORD: usize = 1;

pub const REPORT_CONFIGURATION_WORD: usize = 2;

pub const REPORT_DATA_WORD: usize = 3;

/// The names under which `gen` appends the configuration and the data.
pub const GEN_CONFIGURATION_WORD: usize = 3;

pub const GEN_DATA_WORD: usize = 4;

// One to ten decimal digits.
fn number(word: &str) -> Option<u64>
    ensures some { IfSome result (IsNumber word.now) }
    ensures none { IfNone result ((n : ℕ) → ¬ IsNumber word.now n) }
{
    if word.len() > 10 || !matches!(word.as_bytes().first(), Some(b'0'..=b'9')) {
        return None;
    }
    word.parse().ok()
}

fn number_in(word: &str, low: u32, high: u32) -> Option<u32>
    ensures some { IfSome result (IsNumberIn low high word.now) }
    ensures none { IfNone result ((n : ℕ) → ¬ IsNumberIn low high word.now n) }
{
    let n = u32::try_from(number(word)?).ok()?;
    if n < low || high < n {
        return None;
    }
    Some(n)
}

// What `levels` is asked for, and None exactly where the words don't have its shape.
fn levels_command(words: &Words) -> Option<LevelsCommand>
    ensures some { IfSome result (λ command. Asks words.now (commands.Levels command)) }
    ensures none { IfNone result ((channel nominal uncertainty : ℕ)
        → ¬ IsLevels words.now channel nominal uncertainty) }
{
    if words.len() != 6
        || words.word(0) != "levels"
        || words.word(CONFIGURATION_WORD) == words.word(DATA_WORD)
    {
        return None;
    }
    let channel = number_in(words.word(3), 1, 256)?;
    let nominal_mv = number_in(words.word(4), 1000, 1_000_000)?;
    let uncertainty_uv = number_in(words.word(5), 0, 10 * nominal_mv)?;
    let supply = Supply {
        nominal_mv,
        uncertainty_uv,
    };
    Some(LevelsCommand { channel, supply })
}

// Whether the words have the shape of `check`.
fn is_check(words: &Words) -> bool
    ensures { IsTrue result ↔ IsCheck words.now }
{
    words.len() == 3
        && words.word(0) == "check"
        && words.word(CONFIGURATION_WORD) != words.word(DATA_WORD)
}

// The lamp of a word.
fn lamp_of_word(word: &str) -> Option<Lamp>
    ensures some { IfSome result (λ lamp. word.now ≡ lamp_name lamp) }
    ensures none { IfNone result ((lamp : LampView) → word.now ≢ lamp_name lamp) }
{
    match word {
        "230/50" => Some(Lamp::L230),
        "120/60" => Some(Lamp::L120),
        _ => None,
    }
}

// The rate that `tables` is asked for: 2400 samples a second where no word names one.
fn rate_of_words(words: &Words) -> Option<Rate>
    ensures some { IfSome result (AsksRate words.now) }
    ensures none { IfNone result ((rate : RateView) → ¬ AsksRate words.now rate) }
{
    if words.len() == 2 {
        return Some(Rate::R2400);
    }
    if words.len() != 3 {
        return None;
    }
    match words.word(2) {
        "2400" => Some(Rate::R2400),
        "4800" => Some(Rate::R4800),
        _ => None,
    }
}

// The lamp and the rate that `tables` is asked for, and None exactly where the words don't have its shape.
fn tables_command(words: &Words) -> Option<(Lamp, Rate)>
    ensures some { IfSome result (λ pair. IsTables words.now pair.0 pair.1) }
    ensures none { IfNone result ((lamp : LampView) (rate : RateView) → ¬ IsTables words.now lamp rate) }
{
    if words.len() < 2 || words.word(0) != "tables" {
        return None;
    }
    let Some(lamp) = lamp_of_word(words.word(1)) else {
        return None;
    };
    match rate_of_words(words) {
        Some(rate) => Some((lamp, rate)),
        None => None,
    }
}

// Whether no two of the names of a report's files are the same.
fn report_names_differ(words: &Words) -> bool
    requires { 3 < length words.now }
    ensures { IsTrue result ↔ AreReportNames words.now }
{
    let job = words.word(JOB_WORD);
    let configuration = words.word(REPORT_CONFIGURATION_WORD);
    let data = words.word(REPORT_DATA_WORD);
    job != configuration && job != data && configuration != data
}

// What `report` is asked for, and None exactly where the words don't have its shape.
fn report_command(words: &Words) -> Option<ReportCommand>
    ensures some { IfSome result (λ command. Asks words.now (commands.Report command)) }
    ensures none { IfNone result ((workers : ℕ) → ¬ IsReport words.now workers) }
{
    if words.len() != 5 || words.word(0) != "report" || !report_names_differ(words) {
        return None;
    }
    let workers = number_in(words.word(4), 1, 16)?;
    Some(ReportCommand { workers })
}

// What `gen` is asked for, and None exactly where the words don't have its shape.
fn gen_command(words: &Words) -> Option<GenCommand>
    ensures some { IfSome result (λ command. Asks words.now (commands.Gen command)) }
    ensures none { IfNone result ((seed seconds : ℕ) → ¬ IsGen words.now seed seconds) }
{
    if words.len() != 5
        || words.word(0) != "gen"
        || words.word(GEN_CONFIGURATION_WORD) == words.word(GEN_DATA_WORD)
    {
        return None;
    }
    let seed = number_in(words.word(1), 0, u32::MAX)?;
    let seconds = number_in(words.word(2), 1, 8000)?;
    Some(GenCommand { seed, seconds })
}

/// What the words ask for, and None exactly where they have no command's shape.
pub fn command_of(words: &Words) -> Option<Command>
    ensures some { IfSome result (Asks words.now) }
    ensures none { IfNone result (IsNoCommand words.now) }
{
    if let Some(command) = levels_command(words) {
        return Some(Command::Levels(command));
    }
    if is_check(words) {
        return Some(Command::Check);
    }
    if let Some((lamp, rate)) = tables_command(words) {
        return Some(Command::Tables(lamp, rate));
    }
    if let Some(command) = report_command(words) {
        return Some(Command::Report(command));
    }
    match gen_command(words) {
        Some(command) => Some(Command::Gen(command)),
        None => None,
    }
}
