//! The words of the command line, read by `clap`. It knows words alone, and opens no file.
#![tactic(auto)]

ghost use Rattle.std.specs.Prelude.{◌≡◌, ◌≤◌, IfOk, IfSome, true, false, length, map, option_map, string_bytes, codes};
ghost use Rattle.clap.specs.Words.{app_of, rule_of, first_of, found_of, rows_of, is_simple};
ghost use Rattle.clap.specs.Faults.{is_simple_and_free};
ghost use Rattle.xr_model.specs.command_line.Words.{run_app, file_arg, device_arg, places_arg, load_app, frames_arg, is_file, is_file_or_none, begins_with, options_in, run_under, frames_of, frames_in, load_under, form_of};
ghost use Rattle.xr_command.specs.Reads.{shown, shown_form, ReadsAs, ReadsRows, FitsLimits};

use clap::builder::ValueParser;
use clap::error::ErrorKind;
use clap::{Arg, ArgAction, ArgMatches, Command};
use std::alloc::{AllocError, Global};
use xr_types::{MOST_FILE_NAME, MOST_LOAD};

/// What the words ask for: a run of the scenario under `file`, with the device under `device` where
/// one is named, and with or without the places of replies in its report.
#[derive(Clone, Copy)]
pub struct RunOptions<'a> {
    pub file: &'a str,
    pub device: Option<&'a str>,
    pub places: bool,
}

/// What the words ask for: a run of files, or a load of so many frames, 1 to 200,000.
#[derive(Clone, Copy)]
pub enum WordsForm<'a> {
    Run(RunOptions<'a>),
    Load(u32),
}

/// Why there is no form: the words have none, or memory was short.
#[derive(Clone, Copy, Debug, PartialEq, Eq)]
pub enum WordsFault {
    Usage,
    NoMemory,
}

fn file_arg<'a>(alloc: Global) -> Arg<'a>
    ensures rule { rule_of result ≡ file_arg }
    ensures local { result.global ≡ false }
{
    Arg::new(alloc, "file").required(true)
}

fn device_arg<'a>(alloc: Global) -> Arg<'a>
    ensures rule { rule_of result ≡ device_arg }
    ensures local { result.global ≡ false }
{
    Arg::new(alloc, "device").long("device")
}

fn places_arg<'a>(alloc: Global) -> Arg<'a>
    ensures rule { rule_of result ≡ places_arg }
    ensures local { result.global ≡ false }
{
    Arg::new(alloc, "places")
        .long("places")
        .action(ArgAction::SetTrue)
}

/// The command that reads the words of a run.
fn run_command<'a>(alloc: Global) -> Result<Command<'a>, AllocError>
    ensures { IfOk result (λ command. app_of command ≡ run_app) }
{
    let command = Command::new(alloc, "xrsim");
    let command = command.arg(file_arg(alloc))?;
    let command = command.arg(device_arg(alloc))?;
    let command = command.arg(places_arg(alloc))?;
    Ok(command)
}

fn frames_arg<'a>(alloc: Global) -> Arg<'a>
    ensures rule { rule_of result ≡ frames_arg }
    ensures local { result.global ≡ false }
{
    Arg::new(alloc, "n")
        .required(true)
        .value_parser(ValueParser::Unsigned(1, u64::from(MOST_LOAD)))
}

/// The command that reads the words of a load.
fn load_command<'a>(alloc: Global) -> Result<Command<'a>, AllocError>
    ensures { IfOk result (λ command. app_of command ≡ load_app) }
{
    let command = Command::new(alloc, "xrsim");
    let command = command.arg(frames_arg(alloc))?;
    Ok(command)
}

/// What a command makes of the words.
fn read_by<'a>(command: Command<'a>, words: &'a [String]) -> Result<ArgMatches<'a>, WordsFault>
    requires simple { is_simple (app_of command) ≡ true }
    requires free { is_simple_and_free (app_of command) ≡ true }
    ensures { ReadsRows result (app_of command.entry) (map string_bytes words.entry.now) }
{
    match command.try_get_matches_from(words) {
        Ok(matches) => Ok(matches),
        Err(e) => match e.kind() {
            ErrorKind::OutOfMemory => Err(WordsFault::NoMemory),
            _ => Err(WordsFault::Usage),
        },
    }
}

/// Whether the first word is this one.
fn begins_with(words: &[String], word: &str) -> bool
    ensures { result ≡ begins_with word.now (map string_bytes words.now) }
{
    !words.is_empty() && words[0].as_str() == word
}

fn is_file(name: &str) -> bool
    ensures { result ≡ is_file name.now }
{
    !name.is_empty() && name.len() <= MOST_FILE_NAME
}

/// Whether the name is a file's, or there is none.
fn is_file_or_none(name: Option<&str>) -> bool
    ensures { result ≡ is_file_or_none (option_map (λ text. text.now) name.entry) }
{
    match name {
        Some(name) => is_file(name),
        None => true,
    }
}

/// The text that the command found for an argument.
#[tactic(auto, using(crate::proofs::Rows::rows))]
fn text_of<'a>(matches: &ArgMatches<'a>, id: &str) -> Option<&'a str>
    ensures { option_map (λ text. text.now) result ≡ first_of id.now (rows_of (found_of matches.now)) }
{
    matches.get_str(id)
}

/// The form of what the command found.
fn options_in<'a>(matches: &ArgMatches<'a>) -> Option<RunOptions<'a>>
    ensures form { option_map shown result ≡ options_in (rows_of (found_of matches.now)) }
    ensures short { IfSome result (λ form. length form.file.now ≤ MOST_FILE_NAME) }
    ensures short_device { IfSome result (λ form. IfSome form.device (λ name. length name.now ≤ MOST_FILE_NAME)) }
{
    let Some(file) = text_of(matches, "file") else {
        return None;
    };
    let device = text_of(matches, "device");
    if !is_file(file) || !is_file_or_none(device) {
        return None;
    }
    let places = text_of(matches, "places") == Some("true");
    Some(RunOptions {
        file,
        device,
        places,
    })
}

/// The form of a run under its word. `Usage` comes exactly where the words don't have it, and `NoMemory` is free.
#[tactic(auto, unfolding(xr_model::specs::command_line::Words::is_taken, xr_model::specs::command_line::Words::rows_in))]
fn run_under<'a>(
    alloc: Global,
    word: &str,
    words: &'a [String],
) -> Result<RunOptions<'a>, WordsFault>
    ensures form { ReadsAs shown result (run_under word.now (map string_bytes words.entry.now)) }
    ensures short { IfOk result (λ options. length options.file.now ≤ MOST_FILE_NAME) }
    ensures short_device { IfOk result (λ options. IfSome options.device (λ name. length name.now ≤ MOST_FILE_NAME)) }
{
    if !begins_with(words, word) {
        return Err(WordsFault::Usage);
    }
    let Ok(command) = run_command(alloc) else {
        return Err(WordsFault::NoMemory);
    };
    let matches = read_by(command, words)?;
    match options_in(&matches) {
        Some(options) => Ok(options),
        None => Err(WordsFault::Usage),
    }
}

/// The number of frames that a text tells.
fn frames_of(text: &str) -> Option<u32>
    ensures { result ≡ frames_of text.now }
{
    let Ok(frames) = text.parse::<u64>() else {
        return None;
    };
    if frames == 0 || frames > u64::from(MOST_LOAD) {
        return None;
    }
    Some(frames as u32)
}

/// The number of frames in what the command found.
fn frames_in<'a>(matches: &ArgMatches<'a>) -> Option<u32>
    ensures { result ≡ frames_in (rows_of (found_of matches.now)) }
{
    frames_of(text_of(matches, "n")?)
}

/// The number of frames of a load. `Usage` comes exactly where the words aren't of that form, and `NoMemory` is free.
#[tactic(auto, unfolding(xr_model::specs::command_line::Words::is_load_taken, xr_model::specs::command_line::Words::load_rows_in))]
fn load_under(alloc: Global, word: &str, words: &[String]) -> Result<u32, WordsFault>
    ensures form { ReadsAs (λ frames. frames) result (load_under word.now (map string_bytes words.now)) }
    ensures few { IfOk result (λ frames. (1 ≤ frames) × (frames ≤ MOST_LOAD)) }
{
    if !begins_with(words, word) {
        return Err(WordsFault::Usage);
    }
    let Ok(command) = load_command(alloc) else {
        return Err(WordsFault::NoMemory);
    };
    let matches = read_by(command, words)?;
    match frames_in(&matches) {
        Some(frames) => Ok(frames),
        None => Err(WordsFault::Usage),
    }
}

/// The form of the words on one thread: `serial FILE`, with `--device FILE` and `--places` where these are wanted, or
/// `load N`. `Usage` comes exactly where they have no form, and `NoMemory` is free.
pub fn form_of<'a>(alloc: Global, words: &'a [String]) -> Result<WordsForm<'a>, WordsFault>
    ensures form { ReadsAs shown_form result (form_of (map string_bytes words.entry.now)) }
    ensures fits { IfOk result FitsLimits }
{
    if begins_with(words, "load") {
        let frames = load_under(alloc, "load", words)?;
        return Ok(WordsForm::Load(frames));
    }
    let options = run_under(alloc, "serial", words)?;
    Ok(WordsForm::Run(options))
}

/// The form of the words on threads: `threads FILE`, with `--device FILE` and `--places` where these are wanted. `Usage` comes
/// exactly where they don't have it, and `NoMemory` is free.
pub fn threads_options<'a>(alloc: Global, words: &'a [String]) -> Result<RunOptions<'a>, WordsFault>
    ensures form { ReadsAs shown result (run_under (codes "threads") (map string_bytes words.entry.now)) }
    ensures short { IfOk result (λ options. length options.file.now ≤ MOST_FILE_NAME) }
    ensures short_device { IfOk result (λ options. IfSome options.device (λ name. length name.now ≤ MOST_FILE_NAME)) }
{
    run_under(alloc, "threads", words)
}
