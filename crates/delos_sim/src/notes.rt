//! What the program says to a person, on standard error. Standard output has the rows alone.
use fitting_run::told::Told;
use run_notes::causes::OpenRows;
use run_notes::json_rows::write_rows;
use run_notes::picture::Picture;
use run_notes::rules::sentence;
use script_runner::ended::{End, Status};
use script_text::script::BadLine;
use script_words::plan::read_words;
use std::{env, fs, io};

/// Where this variable is set, the chain is drawn on standard error once the run has ended.
const PICTURE: &str = "DELOS_PICTURE";

/// Where this variable names a file, the rows are written there as JSON, one object a line.
const ROWS: &str = "DELOS_ROWS";

const USAGE: &str = "\
usage: delos_sim run  [--nodes 1..8] [--shelf KIND,KIND,..]           runs the script on standard input
       delos_sim make --seed N --lines 1..15000 [--nodes ..] [--shelf ..]  makes a script of the seed and runs it
KIND:  file native1 native3 native5 native7 striped2 .. striped8 nested; the default shelf is file,native3,striped2,native5
";

/// One line, or a few, on what the status means.
pub(crate) fn explain(rt: &HostRuntime, end: &End) -> io::Result<()> {
    match end.status {
        Status::Done => Ok(()),
        Status::Open => match &end.told {
            Some(told) => {
                let rows = told.rows.as_slice();
                eprint!(rt; "{}", OpenRows { rows })
            }
            None => Ok(()),
        },
        Status::BadLine => match &end.refused {
            Some(bad) => explain_line(rt, bad),
            None => Ok(()),
        },
        Status::BadWords => eprint!(rt; "{USAGE}"),
        Status::SourceFault => eprintln!(rt; "standard input failed: no line was run"),
        Status::SinkFault => {
            eprintln!(rt; "standard output failed: what it has is a front of the text")
        }
        Status::Memory => no_memory(rt),
    }
}

/// Which line was refused, and what it has wrong.
fn explain_line(rt: &HostRuntime, bad: &BadLine) -> io::Result<()> {
    let n = bad.n;
    let what = sentence(bad.rule);
    eprintln!(rt; "no line was run; line {n}: {what}")
}

pub(crate) fn no_memory(rt: &HostRuntime) -> io::Result<()> {
    eprintln!(rt; "there was no memory for the run: nothing was printed")
}

/// What the environment asks for beside the rows.
pub(crate) fn show(rt: &HostRuntime, words: &[String], told: &Told) -> io::Result<()> {
    if env::var(rt, PICTURE).is_ok() {
        draw(rt, words, told)?;
    }
    if let Ok(path) = env::var(rt, ROWS) {
        let rows = write_rows(rt.alloc(), told.rows.as_slice())?;
        fs::write(rt, path.as_str(), rows.as_slice())?;
    }
    Ok(())
}

fn draw(rt: &HostRuntime, words: &[String], told: &Told) -> io::Result<()> {
    let Ok(plan) = read_words(rt.alloc(), words) else {
        return Ok(());
    };
    let kinds = plan.shelf.names(rt.alloc())?;
    let kinds = kinds.as_slice();
    eprint!(rt; "{}", Picture { told, kinds })
}
