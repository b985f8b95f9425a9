//! The command with its subcommand, as `clap` takes it.
ghost use Rattle.std.specs.Prelude.{◌≡◌, IfOk, false};
ghost use Rattle.clap.specs.Words.{app_of, rule_of};
ghost use Rattle.clap.specs.declared.builder.command.Command.TheViews.{out-Command};
ghost use Rattle.script_words.specs.App.{nodes_rule, seed_rule, made_seed_rule, lines_rule, shelf_rule, run_app, make_app, the_app};

use clap::builder::ValueParser;
use clap::{Arg, Command};
use std::alloc::{AllocError, Global};

fn nodes_arg<'a>(alloc: Global) -> Arg<'a>
    ensures rule { rule_of result ≡ nodes_rule }
    ensures local { result.global ≡ false }
{
    Arg::new(alloc, "nodes")
        .long("nodes")
        .value_parser(ValueParser::signed(1, 8))
        .default_value("1")
}

fn seed_arg<'a>(alloc: Global) -> Arg<'a>
    ensures rule { rule_of result ≡ seed_rule }
    ensures local { result.global ≡ false }
{
    Arg::new(alloc, "seed")
        .long("seed")
        .value_parser(ValueParser::signed(0, 4294967295))
        .default_value("0")
}

// A made script has no seed of its own.
fn made_seed_arg<'a>(alloc: Global) -> Arg<'a>
    ensures rule { rule_of result ≡ made_seed_rule }
    ensures local { result.global ≡ false }
{
    Arg::new(alloc, "seed")
        .long("seed")
        .value_parser(ValueParser::signed(0, 4294967295))
        .required(true)
}

fn lines_arg<'a>(alloc: Global) -> Arg<'a>
    ensures rule { rule_of result ≡ lines_rule }
    ensures local { result.global ≡ false }
{
    Arg::new(alloc, "lines")
        .long("lines")
        .value_parser(ValueParser::signed(1, 15000))
        .required(true)
}

fn shelf_arg<'a>(alloc: Global) -> Arg<'a>
    ensures rule { rule_of result ≡ shelf_rule }
    ensures local { result.global ≡ false }
{
    Arg::new(alloc, "shelf")
        .long("shelf")
        .default_value("file,native3,striped2,native5")
}

fn run_command<'a>(alloc: Global) -> Result<Command<'a>, AllocError>
    ensures app { IfOk result (λ c. app_of c ≡ run_app) }
    ensures local { IfOk result (λ c. (out-Command c).has_globals ≡ false) }
{
    Command::new(alloc, "run")
        .arg(nodes_arg(alloc))?
        .arg(seed_arg(alloc))?
        .arg(shelf_arg(alloc))
}

fn make_command<'a>(alloc: Global) -> Result<Command<'a>, AllocError>
    ensures app { IfOk result (λ c. app_of c ≡ make_app) }
    ensures local { IfOk result (λ c. (out-Command c).has_globals ≡ false) }
{
    Command::new(alloc, "make")
        .arg(nodes_arg(alloc))?
        .arg(made_seed_arg(alloc))?
        .arg(lines_arg(alloc))?
        .arg(shelf_arg(alloc))
}

/// The command line of the program: `delos_sim run` with `--nodes` (1 to 8, default 1), `--seed` (0 to
/// 4294967295, default 0) and `--shelf` (default `file,native3,striped2,native5`); or `delos_sim make` with
/// the same, where `--seed` must be given, and `--lines` (1 to 15,000), which must be given too.
pub fn the_command<'a>(alloc: Global) -> Result<Command<'a>, AllocError>
    ensures { IfOk result (λ c. app_of c ≡ the_app) }
{
    Command::new(alloc, "delos_sim")
        .subcommand_required(true)
        .subcommand(run_command(alloc)?)?
        .subcommand(make_command(alloc)?)
}
