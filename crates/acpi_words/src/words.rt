// The words of a command line.

ghost use Rattle.std.specs.Prelude.{◌≡◌, ◌⊎◌, IfOk, IfSome, Some, None, false, codes, map, vec_items};
ghost use Rattle.clap.specs.Words.{HasKind, all_of, app_of, fault_of, found_of, rows_of, rule_of, subcommand_rows_of};
ghost use Rattle.clap.specs.declared.Command.TheViews.{out-Command as fields_of};
ghost use Rattle.acpi_sources.specs.Faults.{Tries, nowhere};
ghost use Rattle.acpi_words.specs.CommandLine.{acpicheck_app, commands_app, eval_app, files_app, files_rule, flag_rule, method_app, names_app, object_app, option_rule, plain_rule, resources_app, routing_app, verify_app};
ghost use Rattle.acpi_words.specs.Words.{AsksFor, AsksNothing, HasInputs, HasObjectParts, HasParts, HasRoutingParts, HasSteps, HasVerifyParts, IsRequest, has_flag};
ghost use Rattle.acpi_sources.specs.declared.fault.FaultCause.TheVariants as cause;

use acpi_sources::{Fault, FaultCause, InputNames};
use clap::error::ErrorKind;
use clap::{Arg, ArgAction, ArgMatches, Command, Error, value_parser};
use std::alloc::{AllocError, Global};
use std::convert::AsStr;

/// What the words ask for.
#[derive(Debug, Drop)]
pub enum Request<'a> {
    /// To list tables.
    Tables { files: Vec<&'a str> },
    /// To list the names of a DSDT and its SSDTs.
    Names(InputNames<'a>),
    /// To judge the methods of a DSDT and its SSDTs.
    Verify(VerifyRequest<'a>),
    /// To evaluate a method.
    Eval(EvalRequest<'a>),
    /// To list the resource descriptors that an object gives.
    Resources(ObjectRequest<'a>),
    /// To list where the interrupts go that a `_PRT` lists.
    Routing(RoutingRequest<'a>),
}

/// Which methods are to be judged, and how.
#[derive(Debug, Drop)]
pub struct VerifyRequest<'a> {
    /// The DSDT and its SSDTs.
    pub inputs: InputNames<'a>,
    /// The file whose text tells the kinds of arguments.
    pub kinds: Option<&'a str>,
    /// Whether people are told why methods are refused.
    pub explain: bool,
}

/// Which method is to be evaluated, and how.
#[derive(Debug, Drop)]
pub struct EvalRequest<'a> {
    /// The DSDT and its SSDTs.
    pub inputs: InputNames<'a>,
    /// The method's path.
    pub method: &'a str,
    /// The text that lists the arguments.
    pub args: Option<&'a str>,
    /// The file whose text sets registers.
    pub regs: Option<&'a str>,
    /// The file whose text tells the kinds of arguments.
    pub kinds: Option<&'a str>,
    /// The number of steps; without one the method is judged, and takes no more than its verdict
    /// says.
    pub steps: Option<u64>,
    /// The text that `_OSI` knows.
    pub osi: Option<&'a str>,
}

/// Which object is asked for what it gives, and how.
#[derive(Debug, Drop)]
pub struct ObjectRequest<'a> {
    /// The DSDT and its SSDTs.
    pub inputs: InputNames<'a>,
    /// The object's path.
    pub object: &'a str,
    /// The file whose text sets registers.
    pub regs: Option<&'a str>,
    /// The file whose text tells the kinds of arguments.
    pub kinds: Option<&'a str>,
}

/// Which `_PRT` is followed, and how.
#[derive(Debug, Drop)]
pub struct RoutingRequest<'a> {
    /// The object that gives it.
    pub asked: ObjectRequest<'a>,
    /// The file of the MADT.
    pub madt: Option<&'a str>,
}

/// Reads the words: a command, its options, and last its files.
///
/// Fault: E520 for any other words, `--help` too.
pub fn read_words<'a, S: AsStr>(alloc: Global, words: &'a [S]) -> Result<Request<'a>, Fault>
    ensures { let texts = map S.text words.entry.now in
        Tries (AsksFor texts) (λ f. (f ≡ nowhere cause.CommandLine) × AsksNothing texts) result }
{
    let matches = match command(alloc)?.try_get_matches_from(words) {
        Ok(matches) => matches,
        Err(error) => return Err(fault_of_kind(error.kind())),
    };
    request_of(alloc, &matches)
}

/// What is wrong with words that are no command line, or the help that they ask for. None where
/// there is no memory to tell it, or where the words are a command line.
pub fn words_error<S: AsStr>(alloc: Global, words: &[S]) -> Option<Error>
    ensures { IfSome result (HasKind (fault_of acpicheck_app (map S.text words.now))) }
{
    let Ok(command) = command(alloc) else {
        return None;
    };
    match command.try_get_matches_from(words) {
        Ok(_) => None,
        Err(error) => Some(error),
    }
}

fn fault_of_kind(kind: ErrorKind) -> Fault
    ensures memory { kind ≡ ErrorKind.OutOfMemory → result ≡ nowhere cause.NoMemory }
    ensures words { (kind ≡ ErrorKind.OutOfMemory → ⊥) → result ≡ nowhere cause.CommandLine }
    ensures faults { (result ≡ nowhere cause.CommandLine) ⊎ (result ≡ nowhere cause.NoMemory) }
{
    match kind {
        ErrorKind::OutOfMemory => Fault::nowhere(FaultCause::NoMemory),
        _ => Fault::nowhere(FaultCause::CommandLine),
    }
}

fn command<'a>(alloc: Global) -> Result<Command<'a>, AllocError>
    ensures { IfOk result (λ c. app_of c ≡ acpicheck_app) }
{
    program(alloc)
        .subcommand(files_command(alloc, "tables")?)?
        .subcommand(names_command(alloc)?)?
        .subcommand(verify_command(alloc)?)?
        .subcommand(eval_command(alloc)?)?
        .subcommand(resources_command(alloc)?)?
        .subcommand(routing_command(alloc)?)
}

// The words have no program's name in front, and a command is wanted.
fn program<'a>(alloc: Global) -> Command<'a>
    ensures { app_of result ≡ commands_app }
{
    Command::new(alloc, "acpicheck")
        .no_binary_name(true)
        .subcommand_required(true)
}

// A command of that name, which takes files alone.
fn files_command<'a>(alloc: Global, name: &'a str) -> Result<Command<'a>, AllocError>
    ensures app { IfOk result (λ c. app_of c ≡ files_app name.entry.now) }
    ensures local { IfOk result (λ c. (fields_of c).has_globals ≡ false) }
{
    Command::new(alloc, name).arg(files_arg(alloc))
}

fn names_command<'a>(alloc: Global) -> Result<Command<'a>, AllocError>
    ensures app { IfOk result (λ c. app_of c ≡ names_app) }
    ensures local { IfOk result (λ c. (fields_of c).has_globals ≡ false) }
{
    Command::new(alloc, "names")
        .arg(flag_arg(alloc, "dead-externals"))?
        .arg(files_arg(alloc))
}

fn verify_command<'a>(alloc: Global) -> Result<Command<'a>, AllocError>
    ensures app { IfOk result (λ c. app_of c ≡ verify_app) }
    ensures local { IfOk result (λ c. (fields_of c).has_globals ≡ false) }
{
    Command::new(alloc, "verify")
        .arg(option_arg(alloc, "kinds"))?
        .arg(flag_arg(alloc, "explain"))?
        .arg(flag_arg(alloc, "dead-externals"))?
        .arg(files_arg(alloc))
}

fn eval_command<'a>(alloc: Global) -> Result<Command<'a>, AllocError>
    ensures app { IfOk result (λ c. app_of c ≡ eval_app) }
    ensures local { IfOk result (λ c. (fields_of c).has_globals ≡ false) }
{
    method_command(alloc)?
        .arg(option_arg(alloc, "kinds"))?
        .arg(option_arg(alloc, "osi"))?
        .arg(flag_arg(alloc, "dead-externals"))?
        .arg(files_arg(alloc))
}

// The command that evaluates a method, without the options of its tables and of the system.
fn method_command<'a>(alloc: Global) -> Result<Command<'a>, AllocError>
    ensures app { IfOk result (λ c. app_of c ≡ method_app) }
    ensures local { IfOk result (λ c. (fields_of c).has_globals ≡ false) }
{
    Command::new(alloc, "eval")
        .arg(option_arg(alloc, "method").required(true))?
        .arg(option_arg(alloc, "args"))?
        .arg(option_arg(alloc, "regs"))?
        .arg(steps_arg(alloc))
}

// The command that lists the resource descriptors that an object gives.
fn resources_command<'a>(alloc: Global) -> Result<Command<'a>, AllocError>
    ensures app { IfOk result (λ c. app_of c ≡ resources_app) }
    ensures local { IfOk result (λ c. (fields_of c).has_globals ≡ false) }
{
    object_command(alloc, "resources")?
        .arg(flag_arg(alloc, "dead-externals"))?
        .arg(files_arg(alloc))
}

// The command that lists where the interrupts go that a `_PRT` lists.
fn routing_command<'a>(alloc: Global) -> Result<Command<'a>, AllocError>
    ensures app { IfOk result (λ c. app_of c ≡ routing_app) }
    ensures local { IfOk result (λ c. (fields_of c).has_globals ≡ false) }
{
    object_command(alloc, "routing")?
        .arg(option_arg(alloc, "madt"))?
        .arg(flag_arg(alloc, "dead-externals"))?
        .arg(files_arg(alloc))
}

// A command of that name that asks for an object, without the options of its tables.
fn object_command<'a>(alloc: Global, name: &'a str) -> Result<Command<'a>, AllocError>
    ensures app { IfOk result (λ c. app_of c ≡ object_app name.entry.now) }
    ensures local { IfOk result (λ c. (fields_of c).has_globals ≡ false) }
{
    Command::new(alloc, name)
        .arg(option_arg(alloc, "object").required(true))?
        .arg(option_arg(alloc, "regs"))?
        .arg(option_arg(alloc, "kinds"))
}

// One file or more.
fn files_arg<'a>(alloc: Global) -> Arg<'a>
    ensures rule { rule_of result ≡ files_rule }
    ensures local { result.global ≡ false }
{
    Arg::new(alloc, "files")
        .required(true)
        .action(ArgAction::Append)
        .num_args(1..)
}

// The number of steps, below 2^64.
fn steps_arg<'a>(alloc: Global) -> Arg<'a>
    ensures rule { rule_of result ≡ plain_rule }
    ensures local { result.global ≡ false }
{
    option_arg(alloc, "plain").value_parser(value_parser!(u64))
}

// An option of that name with one value.
fn option_arg<'a>(alloc: Global, name: &'a str) -> Arg<'a>
    ensures rule { rule_of result ≡ option_rule name.entry.now }
    ensures local { result.global ≡ false }
{
    Arg::new(alloc, name).long(name).action(ArgAction::Set)
}

// An option of that name without a value.
fn flag_arg<'a>(alloc: Global, name: &'a str) -> Arg<'a>
    ensures rule { rule_of result ≡ flag_rule name.entry.now }
    ensures local { result.global ≡ false }
{
    Arg::new(alloc, name).long(name).action(ArgAction::SetTrue)
}

// The request of a command that the words gave.
fn request_of<'a>(alloc: Global, matches: &ArgMatches<'a>) -> Result<Request<'a>, Fault>
    ensures { let found = subcommand_rows_of matches.now in
        Tries (IsRequest found)
        (λ f. (f ≡ nowhere cause.CommandLine) × ((r : _) → IsRequest found r → ⊥)) result }
{
    let Some((name, found)) = matches.subcommand() else {
        return Err(Fault::nowhere(FaultCause::CommandLine));
    };
    match name {
        "tables" => Ok(Request::Tables {
            files: files_of(alloc, found)?,
        }),
        "names" => Ok(Request::Names(inputs_of(alloc, found)?)),
        "verify" => Ok(Request::Verify(verify_of(alloc, found)?)),
        "eval" => Ok(Request::Eval(eval_of(alloc, found)?)),
        "resources" => Ok(Request::Resources(object_of(alloc, found)?)),
        "routing" => Ok(Request::Routing(routing_of(alloc, found)?)),
        _ => Err(Fault::nowhere(FaultCause::CommandLine)),
    }
}

// All values of `files`, in their order.
fn files_of<'a>(alloc: Global, found: &ArgMatches<'a>) -> Result<Vec<&'a str>, Fault>
    ensures { let given = all_of (codes "files") (rows_of (found_of found.now)) in
        Tries (λ files. given ≡ Some (map (λ name. name.now) (vec_items files)))
        (λ f. (f ≡ nowhere cause.CommandLine) × (given ≡ None)) result }
{
    match found.get_strs("files") {
        Some(files) => Ok(Vec::from_slice(alloc, files)?),
        None => Err(Fault::nowhere(FaultCause::CommandLine)),
    }
}

// The inputs of a command: the files, and whether Externals in an If that never runs are read.
fn inputs_of<'a>(alloc: Global, found: &ArgMatches<'a>) -> Result<InputNames<'a>, Fault>
    ensures { let rows = rows_of (found_of found.now) in
        Tries (HasInputs rows)
        (λ f. (f ≡ nowhere cause.CommandLine) × ((names : _) → HasInputs rows names → ⊥)) result }
{
    let files = files_of(alloc, found)?;
    if files.is_empty() {
        return Err(Fault::nowhere(FaultCause::CommandLine));
    }
    Ok(InputNames {
        dead_externals: has_flag(found, "dead-externals"),
        files,
    })
}

// Whether an option without a value stands there.
fn has_flag(found: &ArgMatches<'_>, name: &str) -> bool
    ensures { result ≡ has_flag name.now (rows_of (found_of found.now)) }
{
    match found.get_str(name) {
        Some(text) => text == "true",
        None => false,
    }
}

// Each part of the request is the value of its option.
fn verify_of<'a>(alloc: Global, found: &ArgMatches<'a>) -> Result<VerifyRequest<'a>, Fault>
    ensures { let rows = rows_of (found_of found.now) in
        Tries (HasVerifyParts rows)
        (λ f. (f ≡ nowhere cause.CommandLine) × ((r : _) → HasVerifyParts rows r → ⊥)) result }
{
    Ok(VerifyRequest {
        inputs: inputs_of(alloc, found)?,
        kinds: found.get_str("kinds"),
        explain: has_flag(found, "explain"),
    })
}

// The number of steps, where one stands there.
fn steps_of(found: &ArgMatches<'_>) -> Option<u64>
    ensures { HasSteps (rows_of (found_of found.now)) result }
{
    match found.get_one::<u64>("plain") {
        Some(steps) => Some(steps),
        None => None,
    }
}

// Each part of the request is the value of its option.
fn eval_of<'a>(alloc: Global, found: &ArgMatches<'a>) -> Result<EvalRequest<'a>, Fault>
    ensures { let rows = rows_of (found_of found.now) in
        Tries (HasParts rows)
        (λ f. (f ≡ nowhere cause.CommandLine) × ((r : _) → HasParts rows r → ⊥)) result }
{
    let Some(method) = found.get_str("method") else {
        return Err(Fault::nowhere(FaultCause::CommandLine));
    };
    Ok(EvalRequest {
        inputs: inputs_of(alloc, found)?,
        method,
        args: found.get_str("args"),
        regs: found.get_str("regs"),
        kinds: found.get_str("kinds"),
        steps: steps_of(found),
        osi: found.get_str("osi"),
    })
}

// Each part of the request is the value of its option.
fn object_of<'a>(alloc: Global, found: &ArgMatches<'a>) -> Result<ObjectRequest<'a>, Fault>
    ensures { let rows = rows_of (found_of found.now) in
        Tries (HasObjectParts rows)
        (λ f. (f ≡ nowhere cause.CommandLine) × ((r : _) → HasObjectParts rows r → ⊥)) result }
{
    let Some(object) = found.get_str("object") else {
        return Err(Fault::nowhere(FaultCause::CommandLine));
    };
    Ok(ObjectRequest {
        inputs: inputs_of(alloc, found)?,
        object,
        regs: found.get_str("regs"),
        kinds: found.get_str("kinds"),
    })
}

// Each part of the request is the value of its option.
fn routing_of<'a>(alloc: Global, found: &ArgMatches<'a>) -> Result<RoutingRequest<'a>, Fault>
    ensures { let rows = rows_of (found_of found.now) in
        Tries (HasRoutingParts rows)
        (λ f. (f ≡ nowhere cause.CommandLine) × ((r : _) → HasRoutingParts rows r → ⊥)) result }
{
    Ok(RoutingRequest {
        asked: object_of(alloc, found)?,
        madt: found.get_str("madt"),
    })
}
