// The forms of lines.
ghost use Rattle.std.specs.Prelude.{◌≡◌, ◌≤◌, length};
ghost use Rattle.script_text.specs.Gives.{Gives};
ghost use Rattle.script_text.specs.Seen.{Reads};
ghost use Rattle.script_text.specs.Forms.{is_admin_word, admin_of, verb_of, session_form, on_form, form_of, verb_count, ask_of, session_line, line_in, line_at};

use crate::fields::{key_at, name_at, node_at, number_at, value_at};
use crate::line::{Admin, Ask, Fault, Line, Rule};
use crate::seen::Seen;
use crate::words::{Words, words_of};
use std::alloc::Global;
use table_core::command::{Command, Query};

/// What a session's line has it do.
#[derive(Clone, Copy)]
pub enum Verb {
    Put,
    Del,
    Cas,
    Add,
    Get,
    Scan,
}

/// A form of line, by its words that stand for themselves.
#[derive(Clone, Copy)]
pub enum Form {
    Blank,
    Barrier,
    Session(Verb),
    Admin(Admin),
}

fn is_admin_word(word: &[u8]) -> bool
    ensures { result ≡ is_admin_word word.now }
{
    word == b"extend".as_slice()
        || word == b"alive".as_slice()
        || word == b"trim".as_slice()
        || word == b"retire".as_slice()
}

// What a word of an admin line asks.
fn admin_of(word: &[u8]) -> Result<Admin, Fault>
    ensures { Gives result (admin_of word.now) }
{
    if word == b"extend".as_slice() {
        Ok(Admin::Extend)
    } else if word == b"alive".as_slice() {
        Ok(Admin::Alive)
    } else if word == b"trim".as_slice() {
        Ok(Admin::Trim)
    } else if word == b"retire".as_slice() {
        Ok(Admin::Retire)
    } else {
        Err(Fault::Breaks(Rule::Word))
    }
}

fn verb_of(word: &[u8]) -> Result<Verb, Fault>
    ensures { Gives result (verb_of word.now) }
{
    if word == b"put".as_slice() {
        Ok(Verb::Put)
    } else if word == b"del".as_slice() {
        Ok(Verb::Del)
    } else if word == b"cas".as_slice() {
        Ok(Verb::Cas)
    } else if word == b"add".as_slice() {
        Ok(Verb::Add)
    } else if word == b"get".as_slice() {
        Ok(Verb::Get)
    } else if word == b"scan".as_slice() {
        Ok(Verb::Scan)
    } else {
        Err(Fault::Breaks(Rule::Word))
    }
}

fn session_form(words: &Words<'_>) -> Result<Form, Fault>
    ensures { Gives result (session_form words.now) }
{
    if words.len() < 4 {
        return Err(Fault::Breaks(Rule::Word));
    }
    let verb = verb_of(words.get(3))?;
    Ok(Form::Session(verb))
}

fn on_form(words: &Words<'_>) -> Result<Form, Fault>
    ensures { Gives result (on_form words.now) }
{
    if words.len() < 3 {
        return Err(Fault::Breaks(Rule::Word));
    }
    if is_admin_word(words.get(2)) {
        let admin = admin_of(words.get(2))?;
        return Ok(Form::Admin(admin));
    }
    session_form(words)
}

fn form_of(words: &Words<'_>) -> Result<Form, Fault>
    ensures { Gives result (form_of words.now) }
{
    if words.len() == 0 {
        return Ok(Form::Blank);
    }
    if words.get(0) == b"barrier".as_slice() {
        return Ok(Form::Barrier);
    }
    if words.get(0) == b"on".as_slice() {
        on_form(words)
    } else {
        Err(Fault::Breaks(Rule::Word))
    }
}

fn verb_count(verb: Verb) -> usize
    ensures { result ≡ verb_count verb }
{
    match verb {
        Verb::Put => 6,
        Verb::Del => 5,
        Verb::Cas => 7,
        Verb::Add => 6,
        Verb::Get => 5,
        Verb::Scan => 6,
    }
}

fn ask_at(alloc: Global, verb: Verb, words: &Words<'_>) -> Result<Ask, Fault>
    requires { length words.now ≡ verb_count verb }
    ensures { Gives result (ask_of verb words.now) }
{
    match verb {
        Verb::Put => {
            let key = key_at(alloc, words.get(4))?;
            let value = value_at(alloc, words.get(5))?;
            Ok(Ask::Log(Command::Put { key, value }))
        }
        Verb::Del => {
            let key = key_at(alloc, words.get(4))?;
            Ok(Ask::Log(Command::Del { key }))
        }
        Verb::Cas => {
            let key = key_at(alloc, words.get(4))?;
            let old = value_at(alloc, words.get(5))?;
            let new = value_at(alloc, words.get(6))?;
            Ok(Ask::Log(Command::Cas { key, old, new }))
        }
        Verb::Add => {
            let amount = number_at(words.get(5))?;
            let key = key_at(alloc, words.get(4))?;
            Ok(Ask::Log(Command::Add { key, amount }))
        }
        Verb::Get => {
            let key = key_at(alloc, words.get(4))?;
            Ok(Ask::Look(Query::Get { key }))
        }
        Verb::Scan => {
            let low = key_at(alloc, words.get(4))?;
            let high = key_at(alloc, words.get(5))?;
            Ok(Ask::Look(Query::Scan { low, high }))
        }
    }
}

#[tactic(auto, unfolding(crate::specs::Forms::session_line))]
fn session_line(
    alloc: Global,
    nodes: u8,
    seen: &mut Seen,
    words: &Words<'_>,
    verb: Verb,
) -> Result<Line, Fault>
    requires { nodes ≤ 8 }
    ensures { Reads seen.new result (session_line nodes seen.old words.now verb) }
{
    if words.len() != verb_count(verb) {
        return Err(Fault::Breaks(Rule::Count));
    }
    let node = node_at(nodes, words.get(1))?;
    let name = name_at(words.get(2))?;
    let ask = ask_at(alloc, verb, words)?;
    let session = seen.admit(alloc, node, name)?;
    Ok(Line::Session { node, session, ask })
}

fn line_in(
    alloc: Global,
    nodes: u8,
    seen: &mut Seen,
    words: &Words<'_>,
    form: Form,
) -> Result<Line, Fault>
    requires { nodes ≤ 8 }
    ensures { Reads seen.new result (line_in nodes seen.old words.now form) }
{
    match form {
        Form::Blank => Ok(Line::Blank),
        Form::Barrier => {
            if words.len() != 1 {
                return Err(Fault::Breaks(Rule::Count));
            }
            Ok(Line::Barrier)
        }
        Form::Session(verb) => session_line(alloc, nodes, seen, words, verb),
        Form::Admin(admin) => {
            if words.len() != 3 {
                return Err(Fault::Breaks(Rule::Count));
            }
            let node = node_at(nodes, words.get(1))?;
            seen.ask(node, admin)
        }
    }
}

/// A line, after the lines so far, or the first rule that it breaks.
#[tactic(auto, unfolding(crate::specs::Forms::line_at))]
pub fn line_at(alloc: Global, nodes: u8, seen: &mut Seen, text: &[u8]) -> Result<Line, Fault>
    requires { nodes ≤ 8 }
    ensures { Reads seen.new result (line_at nodes seen.old text.now) }
{
    let words = words_of(alloc, text)?;
    let form = form_of(&words)?;
    line_in(alloc, nodes, seen, &words, form)
}
