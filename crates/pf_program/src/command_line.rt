//! The command line: what the words of a call ask for.

ghost use Rattle.std.specs.Prelude.{◌≡◌, ℕ, List, [], ◌∷◌, None, false, codes, map, IfOk};
ghost use Rattle.clap.specs.Words.{app_of, fault_of, kind_of, rule_of, subcommand_of, subcommand_rows_of};
ghost use Rattle.clap.specs.declared.builder.command.Command.TheViews.{out-Command as fields_of};
ghost use Rattle.pf_program.specs.Options.{ParsesAs, AsksFor, FailsByWordsOrMemory, HasCrewSize, RunsUnlessMemory, command_line, crew_option, frame_words, own_words, run_words, session_words, crew_size, crew_size_in, is_session};

use clap::error::ErrorKind;
use clap::{Arg, ArgMatches, Command, Error, value_parser};
use pf_console::{ProgramError, Request, VERSION};
use pf_workers::MAX_WORKERS;
use std::alloc::{AllocError, Global};
use std::convert::AsStr;
use std::rt::Env;
use std::{env, io};

const ABOUT: &str = "An exact 2D physics core for rollback games";

/// What the digits of a frame are called.
const DIGITS: &str = "HEX";

const DIGITS_HELP: &str = "The frame, 27 bytes as 54 hexadecimal digits";

const FRAME_ABOUT: &str = "Prints the fields of one command's frame";

const FRAME_HELP: &str = "\
The reply to a line `issue` of a run holds such a frame. Printed are the tick, the player and the
number of its command, and what it does:

  tick 0 player 0 number 0 push 0 16777216 0
  tick 0 player 0 number 1 turn 0 16777216
  tick 0 player 0 number 2 stop 0
  tick 0 player 0 number 3 place 0 16777216 0";

/// The option of `run` and of `session` that asks for crews.
const CREW: &str = "crew";

const CREW_HELP: &str = "Settle with N threads, 1 to 16; the output is the same";

const RUN_ABOUT: &str = "Answers a text on standard input, line by line";

/// The usage in the help of `run` and in its errors: a stray word may be the name of a text.
const RUN_USAGE: &str = "pf_play run [--crew N] < FILE";

const RUN_HELP: &str = "\
Standard input holds a scene, a line `peers N` with N from 1 to 8, and then events, a line
each. P and Q are the numbers of peers, from 0:

  issue P push B X Y   gives body B an impulse now, and answers the command's frame
  issue P turn B X     gives body B an angular impulse
  issue P stop B       stops body B
  issue P place B X Y  puts body B at (X, Y), at rest
  take P HEX           takes a command's frame, also of a tick that is past
  merge P Q            takes the commands of peer Q, and answers how many were new or greater
  advance P K          goes K ticks of 1/64 s further, and answers the tick reached
  settle P             simulates up to the tick reached, and answers that tick
  show P T             shows the world at tick T, at or below the tick reached
  seal P H             forgets what came before tick H, which has been reached

Numbers are whole, in units of 1/16777216. Save this text as scene.txt, a circle
of mass 1 and radius 1 that falls with gravity 10:

  gravity 0 -167772160
  circle 0 16777216 0 16777216 0 0
  end
  peers 1
  advance 0 2
  show 0 2

and run it by

  pf_play run < scene.txt

An answer begins with the word of its event, or with `refused`. The line `body`
shows number, place, pair of rotation, velocity, spin, ticks at rest, and 1 if awake.
A line `contact` shows two bodies, the feature at which they touch, and the impulses
that it has accumulated along its normal and its tangent. Here the answers are:

  advance 0 2
  show 0 2
  body 0 0 -122880 16777216 0 0 -5242880 0 0 1
  end";

const SESSION_CREW_HELP: &str =
    "Settle each peer with N threads of its own, 1 to 16; the output is the same";

const SESSION_ABOUT: &str = "Plays the scripts of a text on standard input, each peer in a thread";

const SESSION_USAGE: &str = "pf_play session [--crew N] < FILE";

const SESSION_HELP: &str = "\
Standard input holds a scene, a line `peers N` with N from 1 to 8, and then turns, a line each,
those of a peer in their order:

  turn P K HEX HEX ..  peer P takes the frames with these digits, if there are any, and hands
                       each to all others; then it goes K ticks of 1/64 s further

The peers play at the same time. When all are done, and each holds the commands of all, the world
of each peer is shown at its last tick, peer 0 first, as `pf_play run` shows it. Save this text as
session.txt, two peers and a circle that the first one pushes:

  gravity 0 0
  circle 0 16777216 0 16777216 0 0
  end
  peers 2
  turn 0 1 010000000000000000000000000000010000000000000000000000
  turn 1 1

and run it by

  pf_play session < session.txt

The answers are:

  show 0 1
  body 0 262144 0 16777216 0 16777216 0 0 0 1
  end
  show 1 1
  body 0 262144 0 16777216 0 16777216 0 0 0 1
  end";

/// The option `--crew N`, with this help.
fn crew_argument<'a>(alloc: Global, help: &'static str) -> Arg<'a>
    ensures rule { rule_of result ≡ crew_option }
    ensures local { result.global ≡ false }
{
    Arg::new(alloc, CREW)
        .long(CREW)
        .value_name("N")
        .help(help)
        .value_parser(value_parser!(usize).range(1..=MAX_WORKERS as i64))
}

/// The subcommand `run`, with its option.
fn run_command<'a>(alloc: Global) -> Result<Command<'a>, AllocError>
    ensures words { IfOk result (λ command. app_of command ≡ run_words) }
    ensures local { IfOk result (λ command. (fields_of command).has_globals ≡ false) }
{
    Command::new(alloc, "run")
        .about(RUN_ABOUT)
        .override_usage(RUN_USAGE)
        .after_help(RUN_HELP)
        .arg(crew_argument(alloc, CREW_HELP))
}

/// The subcommand `session`, with its option.
fn session_command<'a>(alloc: Global) -> Result<Command<'a>, AllocError>
    ensures words { IfOk result (λ command. app_of command ≡ session_words) }
    ensures local { IfOk result (λ command. (fields_of command).has_globals ≡ false) }
{
    Command::new(alloc, "session")
        .about(SESSION_ABOUT)
        .override_usage(SESSION_USAGE)
        .after_help(SESSION_HELP)
        .arg(crew_argument(alloc, SESSION_CREW_HELP))
}

/// The subcommand `frame`, with its one word.
fn frame_command<'a>(alloc: Global) -> Result<Command<'a>, AllocError>
    ensures words { IfOk result (λ command. app_of command ≡ frame_words) }
    ensures local { IfOk result (λ command. (fields_of command).has_globals ≡ false) }
{
    Command::new(alloc, "frame")
        .about(FRAME_ABOUT)
        .after_help(FRAME_HELP)
        .arg(Arg::new(alloc, DIGITS).help(DIGITS_HELP).required(true))
}

/// The program's own words: its flags, and that a subcommand has to be there.
fn own_command<'a>(alloc: Global) -> Result<Command<'a>, AllocError>
    ensures { IfOk result (λ command. app_of command ≡ own_words) }
{
    let command = Command::new(alloc, "pf_play").bin_name("pf_play")?;
    Ok(
        command
            .version(VERSION)
            .about(ABOUT)
            .after_help(RUN_HELP)
            .disable_help_subcommand(true)
            .subcommand_required(true),
    )
}

/// The command line that the program takes.
fn command<'a>(alloc: Global) -> Result<Command<'a>, AllocError>
    ensures { IfOk result (λ command. app_of command ≡ command_line) }
{
    own_command(alloc)?
        .subcommand(run_command(alloc)?)?
        .subcommand(session_command(alloc)?)?
        .subcommand(frame_command(alloc)?)
}

/// What an error of `clap` means here: a request for help or the version, a mistake in the words,
/// or a lack of memory.
fn request_of<'a>(alloc: Global, error: &Error) -> Result<Request<'a>, ProgramError>
    ensures parses { ParsesAs (kind_of error.now ∷ []) None result }
    ensures crew_size { IfOk result HasCrewSize }
{
    match error.kind() {
        ErrorKind::OutOfMemory => Err(ProgramError::Memory),
        ErrorKind::DisplayHelp => Ok(Request::Help(error.to_string(alloc)?)),
        ErrorKind::DisplayVersion => Ok(Request::Version),
        _ => Err(ProgramError::Words(error.to_string(alloc)?)),
    }
}

// The text of `clap` in Rust, where words are no text.
const NOT_TEXT: &str = "error: invalid UTF-8 was detected in one or more arguments\n\n\
Usage: pf_play <COMMAND>\n\nFor more information, try '--help'.\n";

/// The crew size that a word spells. The command line takes no other word.
fn crew_size(word: &str) -> Option<usize>
    ensures { result ≡ crew_size word.now }
{
    match word.parse::<usize>() {
        Ok(size) if 0 < size && size <= MAX_WORKERS => Some(size),
        _ => None,
    }
}

/// The size of the crew that the subcommand of this name asks for, if it asks for one.
fn crew_size_in(matches: &ArgMatches, name: &str) -> Option<usize>
    ensures { result ≡ crew_size_in name.now (subcommand_rows_of matches.now) }
{
    let entered = matches.subcommand_matches(name)?;
    crew_size(entered.get_str(CREW)?)
}

/// Whether the words enter the subcommand `session`.
fn is_session(matches: &ArgMatches) -> bool
    ensures { result ≡ is_session (subcommand_rows_of matches.now) }
{
    matches.subcommand_matches("session").is_some()
}

/// What valid words ask for.
fn request_for<'a>(matches: &ArgMatches<'a>) -> Request<'a>
    ensures asked { AsksFor (subcommand_rows_of matches.now) result }
    ensures crew_size { HasCrewSize result }
{
    match matches.subcommand_matches("frame") {
        Some(frame) => Request::Frame(frame.get_str(DIGITS).unwrap_or("")),
        None if is_session(matches) => Request::Session {
            crew_size: crew_size_in(matches, "session"),
        },
        None => Request::Run {
            crew_size: crew_size_in(matches, "run"),
        },
    }
}

/// The words of this call, the program's name first.
pub fn words_of<R: Env + Alloc<A = Global>>(rt: &R) -> Result<Vec<String>, ProgramError>
    ensures { FailsByWordsOrMemory result }
{
    match env::args(rt) {
        Ok(words) => Ok(words.collect(rt.alloc())?),
        Err(error) if error.kind() == io::ErrorKind::OutOfMemory => Err(ProgramError::Memory),
        Err(_) => Err(ProgramError::Words(String::from_str(rt.alloc(), NOT_TEXT)?)),
    }
}

/// Parses the words of a call, of which the first is the program's name.
pub fn options<'a, S: AsStr>(alloc: Global, words: &'a [S]) -> Result<Request<'a>, ProgramError>
    ensures parses { let them = map S.text words.now in
        ParsesAs (fault_of command_line them) (subcommand_of command_line them) result }
    ensures crew_size { IfOk result HasCrewSize }
    ensures runs { (program : List ℕ) → map S.text words.now ≡ program ∷ codes "run" ∷ []
        → RunsUnlessMemory result }
{
    match command(alloc)?.try_get_matches_from(words) {
        Ok(matches) => Ok(request_for(&matches)),
        Err(error) => request_of(alloc, &error),
    }
}
