//! Reading the words of the command line with clap.
ghost use Rattle.std.specs.Prelude.{ℕ, ◌≡◌, ◌≤◌, codes, IfErr, IfOk, IsOkAnd, MatchOption, false, length, map};
ghost use Rattle.std.specs.Prelude.{string_bytes, unwrap_or};
ghost use Rattle.clap.specs.Words.{app_of, first_of, found_of, kind_of, new_app, rows_of, rule_of, subcommand_rows_of};
ghost use Rattle.clap.specs.Words.{with_rule, with_subcommand};
ghost use Rattle.clap.specs.declared.error.kind.ErrorKind.TheVariants.{MissingSubcommand};
ghost use Rattle.text_parts.specs.Parts.{texts_of};
ghost use Rattle.command_line.specs.CommandLine.{AreOneToNine, CommandAsks, HasOwnArguments, IsFaultBy};
ghost use Rattle.command_line.specs.CommandLine.{IsFaultOfFolders, IsFaultOfQuery, IsNoRequest, IsQueryOf, IsRefusal};
ghost use Rattle.command_line.specs.CommandLine.{IsRequest, TellsTooMany, bare_program, check_command, explain_command};
ghost use Rattle.command_line.specs.CommandLine.{folder_rule, folders_in, folders_of, lang_rule, no_names_rule};
ghost use Rattle.command_line.specs.CommandLine.{HasFoldersOf, default_language, language_command};
ghost use Rattle.command_line.specs.CommandLine.{number_rule, program, query_command};
ghost use Rattle.command_line.specs.QueryWords.{GivesNumber, IsFaultOfNumber, IsFaultOfNumbers, IsNoCall, IsNumberText};
ghost use Rattle.command_line.specs.QueryWords.{IsQueryMode, is_given, mode_of};

use clap::builder::ValueParser;
use clap::error::ErrorKind;
use clap::{Arg, ArgAction, ArgMatches, Command, Error};
use std::alloc::{AllocError, Global};

/// What a run of the program does.
#[derive(Clone, Copy, Debug, PartialEq, Eq)]
pub enum Mode {
    /// Answers queries over the built-in release.
    Sample,
    /// Answers queries over the release in folders, without options.
    Query,
    /// Answers queries over the release in folders, with a limit or in another form of answer.
    QueryWith(QueryOptions),
    /// Writes the plans of queries over the release in folders, and how many items each visits at
    /// most.
    Explain,
    /// Writes what the release in folders says of concepts, which the input names by identifiers.
    Describe,
    /// Answers requests of a program over the release in folders: pages of answers, plans, and
    /// descriptions of concepts.
    Session,
    /// Reports how many rows the release in folders has, and reads no input.
    Check,
}

/// The options of the command `query`.
#[derive(Clone, Copy, Debug, PartialEq, Eq)]
pub struct QueryOptions {
    /// How many items the plan of a constraint may visit at most. Without the option it is
    /// `u64::MAX`, which no bound exceeds.
    pub limit: u64,
    /// How many lines of concepts an answer has at most, from the first on; `None` writes all.
    pub first: Option<u64>,
    /// Whether the line of a concept has the concept's name.
    pub names: bool,
}

/// What the words of a command line ask the program to do.
#[derive(Drop, Debug)]
pub struct Request {
    /// What the run does.
    pub mode: Mode,
    /// The names of the folders, as the words give them and in their order: 1 to 9, or none for the
    /// built-in release.
    pub folders: Vec<String>,
    /// The code of the language whose names are preferred; `en` if the words give none.
    pub lang: String,
}

impl Request {
    // Makes a request over the release in `folders`. Refuses an empty list, and more than 9
    // folders.
    fn of_folders(
        alloc: Global,
        mode: Mode,
        folders: &[&str],
        lang: &str,
    ) -> Result<Request, WordFault>
        ensures asked { IfOk result (λ request. (request.mode ≡ mode)
            × (folders_in request ≡ texts_of folders.now) × AreOneToNine (texts_of folders.now)
            × (string_bytes request.lang ≡ lang.now)) }
        ensures refused { IfErr result (IsFaultOfFolders (texts_of folders.now)) }
    {
        if folders.is_empty() {
            return Err(no_command(alloc));
        }
        if folders.len() > MOST_FOLDERS {
            return Err(too_many_folders(alloc));
        }
        Ok(Request {
            mode,
            folders: copies(alloc, folders)?,
            lang: String::from_str(alloc, lang)?,
        })
    }
}

// Copies `texts` into owned strings, in order.
fn copies(alloc: Global, texts: &[&str]) -> Result<Vec<String>, AllocError>
    ensures { IfOk result (λ copies. map string_bytes copies.items ≡ texts_of texts.now) }
{
    let mut copies = Vec::new(alloc);
    for text in texts {
        copies.push(String::from_str(alloc, text)?)?;
    }
    Ok(copies)
}

/// Why the words are not a request.
#[derive(Drop, Debug)]
pub enum WordFault {
    /// The words are wrong. The text explains why, for the user.
    Usage(String),
    /// The words ask for help or for the version. The text is what to show the user.
    Help(String),
    /// Memory was refused.
    Memory,
}

impl WordFault {
    ghost use Rattle.command_line.specs.CommandLine.{word_fault_number};

    /// Returns the number of the fault, from 1 to 3 in the order above.
    pub fn number(&self) -> u8
        ensures { result ≡ word_fault_number self.now }
    {
        match self {
            WordFault::Usage(_) => 1,
            WordFault::Help(_) => 2,
            WordFault::Memory => 3,
        }
    }
}

const DEFAULT_LANGUAGE: &str = "en";

// The greatest number of folders for a release.
const MOST_FOLDERS: usize = 9;

// The version of the program. It is written nowhere else.
const VERSION: &str = "0.1.0";

// The usage line of `query`. It lists each option, because clap takes a word such as `-1` after an
// option for a flag, and then only this line of clap's text names the option.
const QUERY_USAGE: &str =
    "hosecrag query <FOLDER>... [--lang <CODE>] [--limit <VISITS>] [--first <N>] [--no-names]";

// The text that help prints after the commands.
const USES: &str = "Seven ways to start it:
  printf '<100005\\n' | hosecrag
  printf '<<404684003\\n' | hosecrag query SnomedCT_Release/Snapshot --lang en
  printf '<<404684003\\n' | hosecrag query SnomedCT_Release/Snapshot SnomedCT_Extension/Snapshot
  printf '<<404684003\\n' | hosecrag explain SnomedCT_Release/Snapshot
  printf '404684003\\n' | hosecrag describe SnomedCT_Release/Snapshot
  printf 'list 0 20 - <<404684003\\n' | hosecrag session SnomedCT_Release/Snapshot
  hosecrag check SnomedCT_Release/Snapshot

It ends with a status:
  0  all was done
  1  a folder, a file or a stream failed, or the input had no end
  2  the words are no command
  3  the files are no release
  4  memory was refused";

/// Reads the words of a command line. The first word is the program's name. After it stands nothing
/// (this asks for the built-in release), or one of:
///
/// - `query FOLDER.. [--lang CODE] [--limit VISITS] [--first N] [--no-names]`
/// - `explain FOLDER..`
/// - `describe FOLDER.. [--lang CODE]`
/// - `session FOLDER.. [--lang CODE]`
/// - `check FOLDER..`
///
/// Each command takes 1 to 9 folders. VISITS and N are decimal numbers of 64 bits without a sign.
/// It returns `Help` for `--help` and `--version`, `Usage` for wrong words, and `Memory` if memory
/// is refused. Without a second word it can only fail for want of memory.
pub fn read_words<'a>(alloc: Global, words: &'a [&'a str]) -> Result<Request, WordFault>
    ensures asked { IfOk result (IsRequest (texts_of words.now)) }
    ensures refused { IfErr result (IsRefusal (texts_of words.now)) }
    ensures none { length words.now ≤ 1 → IfErr result (λ fault. fault ≡ WordFault.Memory) }
{
    if words.len() <= 1 {
        let lang = String::from_str(alloc, DEFAULT_LANGUAGE)?;
        return Ok(Request {
            mode: Mode::Sample,
            folders: Vec::new(alloc),
            lang,
        });
    }
    let command = command_line(alloc)?;
    match command.try_get_matches_from(words) {
        Ok(matches) => request_by(alloc, matches),
        Err(error) => Err(fault_by(alloc, error)),
    }
}

// Returns the request in clap's matches, and drops the matches.
fn request_by(alloc: Global, matches: ArgMatches<'_>) -> Result<Request, WordFault>
    ensures asked { IfOk result (λ request. CommandAsks request.mode
        (subcommand_rows_of matches.entry) request) }
    ensures refused { IfErr result (IsNoRequest (subcommand_rows_of matches.entry)) }
{
    let request = command_request(alloc, &matches);
    drop(matches);
    request
}

// Returns the fault for an error of clap, and drops the error.
fn fault_by(alloc: Global, error: Error) -> WordFault
    ensures { IsFaultBy (kind_of error) result }
{
    let fault = word_fault(alloc, &error);
    drop(error);
    fault
}

// Describes the program to clap: its commands with their arguments.
fn command_line<'a>(alloc: Global) -> Result<Command<'a>, AllocError>
    ensures { IfOk result (λ command. app_of command ≡ program) }
{
    let named = bare_program(alloc)?;
    let with_query = with(named, query_command(alloc))?;
    let with_explain = with(with_query, explain_command(alloc))?;
    let with_describe = with(
        with_explain,
        language_command(
            alloc,
            "describe",
            "tells of concepts, by an identifier a line, what the release of 1 to 9 folders has",
        ),
    )?;
    let with_session = with(
        with_describe,
        language_command(
            alloc,
            "session",
            "answers requests of a program on the release of 1 to 9 folders: list, ids, explain, describe",
        ),
    )?;
    with(with_session, check_command(alloc))
}

// Adds `command` to `program`, or passes on that memory for the command was refused.
fn with<'a>(
    program: Command<'a>,
    command: Result<Command<'a>, AllocError>,
) -> Result<Command<'a>, AllocError>
    ensures { IfOk result (λ whole. IsOkAnd command.entry (λ own. HasOwnArguments own
        → app_of whole ≡ with_subcommand (app_of program.entry) (app_of own).top)) }
{
    match command {
        Ok(command) => program.subcommand(command),
        Err(refused) => {
            drop(program);
            Err(refused)
        }
    }
}

// Describes the program without its commands.
fn bare_program<'a>(alloc: Global) -> Result<Command<'a>, AllocError>
    ensures { IfOk result (λ command. app_of command ≡ bare_program) }
{
    let named = Command::new(alloc, "hosecrag").bin_name("hosecrag")?;
    Ok(
        named
            .version(VERSION)
            .about(
                "answers SNOMED CT queries, one to a line of standard input; without a command, on a small release that is built in",
            )
            .override_usage("hosecrag [COMMAND]")
            .after_help(USES)
            .subcommand_required(true),
    )
}

// Describes the command `query` with its options.
fn query_command<'a>(alloc: Global) -> Result<Command<'a>, AllocError>
    ensures shape { IfOk result (λ command. app_of command ≡ query_command) }
    ensures own { IfOk result HasOwnArguments }
{
    let with_folder = query_of_folders(alloc)?;
    let with_lang = with_folder.arg(lang_argument(alloc))?;
    let with_limit = with_lang.arg(number_argument(
        alloc,
        "limit",
        "VISITS",
        "answers `ERR bound` where the plan of a query may visit more items, and reads nothing then",
    ))?;
    let with_first = with_limit.arg(number_argument(
        alloc,
        "first",
        "N",
        "writes the whole count and the first N lines",
    ))?;
    with_first.arg(no_names_argument(alloc))
}

// Describes the command `query` with its folders, without its options.
fn query_of_folders<'a>(alloc: Global) -> Result<Command<'a>, AllocError>
    ensures shape { IfOk result (λ command. app_of command
        ≡ with_rule (new_app (codes "query")) folder_rule) }
    ensures own { IfOk result HasOwnArguments }
{
    Command::new(alloc, "query")
        .about("answers queries on the release of 1 to 9 folders")
        .override_usage(QUERY_USAGE)
        .arg(folder_argument(alloc))
}

// Describes the command `explain`.
fn explain_command<'a>(alloc: Global) -> Result<Command<'a>, AllocError>
    ensures shape { IfOk result (λ command. app_of command ≡ explain_command) }
    ensures own { IfOk result HasOwnArguments }
{
    Command::new(alloc, "explain")
        .about(
            "tells of each query the plan on the release of 1 to 9 folders, and how many items it visits at most",
        )
        .arg(folder_argument(alloc))
}

// Describes a command that takes folders and a language.
fn language_command<'a>(
    alloc: Global,
    name: &'a str,
    about: &'a str,
) -> Result<Command<'a>, AllocError>
    ensures shape { IfOk result (λ command. app_of command ≡ language_command name.now) }
    ensures own { IfOk result HasOwnArguments }
{
    let with_folder = folders_command(alloc, name, about)?;
    with_folder.arg(lang_argument(alloc))
}

// Describes a command that takes folders.
fn folders_command<'a>(
    alloc: Global,
    name: &'a str,
    about: &'a str,
) -> Result<Command<'a>, AllocError>
    ensures shape { IfOk result (λ command. app_of command
        ≡ with_rule (new_app name.now) folder_rule) }
    ensures own { IfOk result HasOwnArguments }
{
    Command::new(alloc, name)
        .about(about)
        .arg(folder_argument(alloc))
}

// Describes the command `check`.
fn check_command<'a>(alloc: Global) -> Result<Command<'a>, AllocError>
    ensures shape { IfOk result (λ command. app_of command ≡ check_command) }
    ensures own { IfOk result HasOwnArguments }
{
    Command::new(alloc, "check")
        .about("reports what the release of 1 to 9 folders has, and reads no queries")
        .arg(folder_argument(alloc))
}

// Describes the argument for the folders of a command, which may be repeated.
fn folder_argument<'a>(alloc: Global) -> Arg<'a>
    ensures rule { rule_of result ≡ folder_rule }
    ensures own { result.global ≡ false }
{
    Arg::new(alloc, "FOLDER")
        .required(true)
        .action(ArgAction::Append)
        .help(
            "the folders of the Snapshot files, with their subfolders: one edition, or an edition and its extensions",
        )
}

// Describes the option `--lang`, which takes the code of a language.
fn lang_argument<'a>(alloc: Global) -> Arg<'a>
    ensures rule { rule_of result ≡ lang_rule }
    ensures own { result.global ≡ false }
{
    Arg::new(alloc, "lang")
        .long("lang")
        .value_name("CODE")
        .help("the language whose names come first, en by default")
}

// Describes an option of `query` that takes a number.
fn number_argument<'a>(alloc: Global, name: &'a str, value: &'a str, help: &'a str) -> Arg<'a>
    ensures rule { rule_of result ≡ number_rule name.now }
    ensures own { result.global ≡ false }
{
    Arg::new(alloc, name)
        .long(name)
        .value_name(value)
        .value_parser(ValueParser::unsigned(0, u64::MAX))
        .help(help)
}

// Describes the option `--no-names`, which takes no value.
fn no_names_argument<'a>(alloc: Global) -> Arg<'a>
    ensures rule { rule_of result ≡ no_names_rule }
    ensures own { result.global ≡ false }
{
    Arg::new(alloc, "no-names")
        .long("no-names")
        .action(ArgAction::SetTrue)
        .help("writes identifiers alone")
}

// Returns the request of the command that the words name.
fn command_request(alloc: Global, matches: &ArgMatches<'_>) -> Result<Request, WordFault>
    ensures asked { IfOk result (λ request. CommandAsks request.mode
        (subcommand_rows_of matches.now) request) }
    ensures refused { IfErr result (IsNoRequest (subcommand_rows_of matches.now)) }
{
    let Some((name, arguments)) = matches.subcommand() else {
        return Err(no_command(alloc));
    };
    if name == "query" {
        return query_request(alloc, arguments);
    }
    if name == "describe" {
        return language_request(alloc, Mode::Describe, arguments);
    }
    if name == "session" {
        return language_request(alloc, Mode::Session, arguments);
    }
    let folders = folders_of(arguments);
    if name == "explain" {
        return Request::of_folders(alloc, Mode::Explain, folders, DEFAULT_LANGUAGE);
    }
    if name == "check" {
        return Request::of_folders(alloc, Mode::Check, folders, DEFAULT_LANGUAGE);
    }
    Err(no_command(alloc))
}

// Returns the request, in `mode`, of a command that takes folders and a language.
fn language_request(
    alloc: Global,
    mode: Mode,
    arguments: &ArgMatches<'_>,
) -> Result<Request, WordFault>
    ensures asked { IfOk result (λ request. (request.mode ≡ mode)
        × HasFoldersOf (rows_of (found_of arguments.now)) request
        × (unwrap_or (first_of (codes "lang") (rows_of (found_of arguments.now))) default_language
        ≡ string_bytes request.lang)) }
    ensures refused { IfErr result (IsFaultOfFolders
        (folders_of (rows_of (found_of arguments.now)))) }
{
    let lang = arguments.get_str("lang").unwrap_or(DEFAULT_LANGUAGE);
    Request::of_folders(alloc, mode, folders_of(arguments), lang)
}

// Returns the request of the command `query`.
fn query_request(alloc: Global, arguments: &ArgMatches<'_>) -> Result<Request, WordFault>
    ensures asked { IfOk result (IsQueryOf (rows_of (found_of arguments.now))) }
    ensures refused { IfErr result (IsFaultOfQuery (rows_of (found_of arguments.now))) }
{
    let mode = match query_mode(alloc, arguments) {
        Ok(mode) => mode,
        Err(fault) => return Err(fault),
    };
    let lang = arguments.get_str("lang").unwrap_or(DEFAULT_LANGUAGE);
    Request::of_folders(alloc, mode, folders_of(arguments), lang)
}

// Returns the mode that the options of `query` ask for. Refuses `--limit` and `--first` if their
// text is no number.
fn query_mode(alloc: Global, arguments: &ArgMatches<'_>) -> Result<Mode, WordFault>
    ensures asked { IfOk result (IsQueryMode (rows_of (found_of arguments.now))) }
    ensures refused { IfErr result (IsFaultOfNumbers (rows_of (found_of arguments.now))) }
{
    let limit = number_given(alloc, arguments, "limit")?;
    let first = number_given(alloc, arguments, "first")?;
    let names = !is_given(arguments, "no-names");
    Ok(mode_of(limit, first, names))
}

// Returns the mode for the values of the options: `Query` if none was given, otherwise `QueryWith`.
fn mode_of(limit: Option<u64>, first: Option<u64>, names: bool) -> Mode
    ensures { result ≡ mode_of limit first names }
{
    if limit.is_none() && first.is_none() && names {
        return Mode::Query;
    }
    Mode::QueryWith(QueryOptions {
        limit: limit.unwrap_or(u64::MAX),
        first,
        names,
    })
}

// Returns the number that the option `name` has, or `None` if the option was not given. Refuses a
// text that is no number.
fn number_given(
    alloc: Global,
    arguments: &ArgMatches<'_>,
    name: &str,
) -> Result<Option<u64>, WordFault>
    ensures asked { IfOk result (GivesNumber
        (first_of name.now (rows_of (found_of arguments.now)))) }
    ensures refused { IfErr result (IsFaultOfNumber
        (first_of name.now (rows_of (found_of arguments.now)))) }
{
    let Some(text) = arguments.get_str(name) else {
        return Ok(None);
    };
    match decimal_number(text) {
        Some(number) => Ok(Some(number)),
        None => Err(no_number(alloc, name, text)),
    }
}

// Reads a text as a decimal number of 64 bits. Returns `None` if it is empty, has a byte that is no
// digit, or is too large.
fn decimal_number(text: &str) -> Option<u64>
    ensures { MatchOption result ((number : ℕ) → IsNumberText text.now number → ⊥)
        (IsNumberText text.now) }
{
    let bytes = text.as_bytes();
    if bytes.is_empty() || bytes[0] == b'+' {
        return None;
    }
    match text.parse::<u64>() {
        Ok(number) => Some(number),
        Err(_) => None,
    }
}

// Returns whether the option `name`, which takes no value, was given.
fn is_given(arguments: &ArgMatches<'_>, name: &str) -> bool
    ensures { result ≡ is_given name.now (rows_of (found_of arguments.now)) }
{
    let Some(text) = arguments.get_str(name) else {
        return false;
    };
    text == "true"
}

// Returns the fault for the option `name` whose text is no number.
fn no_number(alloc: Global, name: &str, text: &str) -> WordFault
    ensures { IsNoCall result }
{
    match format!(in alloc; "error: invalid value '{text}' for '--{name}'\n") {
        Ok(text) => WordFault::Usage(text),
        Err(_) => WordFault::Memory,
    }
}

// Returns the folders in the arguments of a command.
fn folders_of<'a>(arguments: &'a ArgMatches<'_>) -> &'a [&'a str]
    ensures { texts_of result.now ≡ folders_of (rows_of (found_of arguments.now)) }
{
    let Some(folders) = arguments.get_strs("FOLDER") else {
        return &[];
    };
    folders
}

// Returns the fault for words that name no command.
fn no_command(alloc: Global) -> WordFault
    ensures { IsFaultBy MissingSubcommand result }
{
    match String::from_str(alloc, "error: no command is named\n") {
        Ok(text) => WordFault::Usage(text),
        Err(_) => WordFault::Memory,
    }
}

// Returns the fault for more than `MOST_FOLDERS` folders.
fn too_many_folders(alloc: Global) -> WordFault
    ensures { TellsTooMany result }
{
    match String::from_str(alloc, "at most 9 folders\n") {
        Ok(text) => WordFault::Usage(text),
        Err(_) => WordFault::Memory,
    }
}

// Returns the fault for an error of clap, with clap's text for the user.
fn word_fault(alloc: Global, error: &Error) -> WordFault
    ensures { IsFaultBy (kind_of error.now) result }
{
    let Ok(text) = format!(in alloc; "{error}") else {
        return WordFault::Memory;
    };
    match error.kind() {
        ErrorKind::DisplayHelp | ErrorKind::DisplayVersion => WordFault::Help(text),
        ErrorKind::OutOfMemory => WordFault::Memory,
        _ => WordFault::Usage(text),
    }
}

impl From<AllocError> for WordFault {
    ghost use Rattle.command_line.specs.declared.words.WordFault.TheVariants.{Memory};

    ghost from_gives = { λ _ fault. fault ≡ Memory };

    fn from(_refused: AllocError) -> WordFault {
        WordFault::Memory
    }
}
