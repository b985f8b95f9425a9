//! A file of cases, and its transcript.
//!
//! A case is a few lines of narration that begin with `#`, then calls, a line each, and a line `----`. Lines that begin with
//! `with` have it played once for each of them, where `$word` stands for what the line gives it, as `with word=1`. A line
//! `with write=1.. word=0|7` stands for a table of them: for each number from 1 on, with each of the words, up to the first
//! number with which nothing happens any more, as a line `until down -> 0` says.
use crate::bench::Bench;
use anyhow::{Context, Result, bail};
use std::alloc::Global;
use std::fs;

/// No table goes further.
const MOST_NUMBERS: u64 = 1000;

/// No value has more choices.
const MOST_CHOICES: usize = 100;

/// What the cases of a file are about.
pub trait Topic {
    /// The name of its file, without the ending `.txt`.
    fn name(&self) -> &'static str;

    /// Plays a case with these values on a new bench.
    fn play(&self, alloc: Global, with: &str, calls: &[Line]) -> Result<String>;
}

/// A line of a file, and its number there.
#[derive(Clone, Copy)]
pub struct Line<'a> {
    number: usize,
    text: &'a str,
}

/// A case: the values that it is played with, the answer that ends their numbers, and its calls.
#[derive(Drop)]
struct Case<'a> {
    with: Vec<&'a str>,
    until: Option<&'a str>,
    calls: Vec<Line<'a>>,
}

/// What came of a case with these values.
#[derive(Drop)]
struct Play {
    with: String,
    text: String,
}

/// What came of a case so far: its first play, the last if it isn't written yet, and whether that had the
/// answer that ends numbers.
#[derive(Drop)]
struct Plays {
    first: Option<String>,
    last: Option<Play>,
    ended: bool,
}

/// The transcript of a file, and how many times its cases were played.
#[derive(Drop)]
struct Transcript {
    text: String,
    plays: usize,
}

/// Plays the file of a topic and prints its transcript, and adds to `plays` how many times its cases were played.
pub fn print_file(rt: &HostRuntime, topic: &dyn Topic, plays: &mut String) -> Result<()> {
    let name = topic.name();
    let file = format!(in rt.alloc(); "{name}.txt")?;
    let text = fs::read_to_string(rt, file.as_str()).context(name)?;
    let transcript = play_file(rt.alloc(), topic, text.as_str()).context(name)?;
    print!(rt; "==== {file}\n{}", transcript.text)?;
    write!(plays, ", {name} {}", transcript.plays)?;
    Ok(())
}

/// Plays each case of a file.
fn play_file(alloc: Global, topic: &dyn Topic, file: &str) -> Result<Transcript> {
    let mut out = Transcript {
        text: String::new(alloc),
        plays: 0,
    };
    let mut case = Case::new(alloc);
    let mut number = 0usize;
    for text in file.lines() {
        number = number.saturating_add(1);
        let line = Line { number, text };
        if text == "----" {
            case.play(alloc, topic, &mut out)?;
            case = Case::new(alloc);
        } else if !case.takes(line)? {
            writeln!(out.text, "{text}")?;
        }
    }
    if !case.calls.is_empty() {
        bail!("the last case has no line ---- at its end");
    }
    Ok(out)
}

impl<'a> Case<'a> {
    fn new(alloc: Global) -> Case<'a> {
        Case {
            with: Vec::new(alloc),
            until: None,
            calls: Vec::new(alloc),
        }
    }

    /// Takes a line, unless it is narration or empty.
    fn takes(&mut self, line: Line<'a>) -> Result<bool> {
        if line.text.is_empty() || line.text.starts_with("#") {
            return Ok(false);
        }
        if let Some(until) = line.text.strip_prefix("until ") {
            self.until = Some(until);
            return Ok(true);
        }
        match line.text.strip_prefix("with ") {
            Some(with) => self.with.push(with)?,
            None => self.calls.push(line)?,
        }
        Ok(true)
    }

    /// Plays it with each of its values.
    fn play(&self, alloc: Global, topic: &dyn Topic, out: &mut Transcript) -> Result<()> {
        if self.calls.is_empty() {
            bail!("a case has no calls");
        }
        if self.with.is_empty() {
            let played = topic.play(alloc, "", self.calls.as_slice())?;
            out.text.push_str(played.as_str())?;
            out.plays = out.plays.saturating_add(1);
        }
        let mut plays = Plays {
            first: None,
            last: None,
            ended: false,
        };
        for with in &self.with {
            self.play_table(alloc, topic, with, &mut plays, out)?;
        }
        writeln!(out.text, "----")?;
        Ok(())
    }

    /// Plays it with all values that a line stands for.
    fn play_table(
        &self,
        alloc: Global,
        topic: &dyn Topic,
        with: &str,
        plays: &mut Plays,
        out: &mut Transcript,
    ) -> Result<()> {
        for number in 1..=MOST_NUMBERS {
            self.play_choices(alloc, topic, with, number, plays, out)?;
            if plays.ended || !with.contains("=1..") {
                return Ok(());
            }
        }
        bail!("no number ends the table");
    }

    /// The same, with this number in the place of numbers.
    fn play_choices(
        &self,
        alloc: Global,
        topic: &dyn Topic,
        with: &str,
        number: u64,
        plays: &mut Plays,
        out: &mut Transcript,
    ) -> Result<()> {
        for choice in 0..MOST_CHOICES {
            match chosen(alloc, with, number, choice)? {
                Some(with) => self.play_with(alloc, topic, with, plays, out)?,
                None => return plays.tell(out),
            }
        }
        bail!("a value has too many choices");
    }

    /// Plays it once.
    fn play_with(
        &self,
        alloc: Global,
        topic: &dyn Topic,
        with: String,
        plays: &mut Plays,
        out: &mut Transcript,
    ) -> Result<()> {
        let played = topic.play(alloc, with.as_str(), self.calls.as_slice())?;
        plays.ended = match self.until {
            Some(until) => answers_first(played.as_str(), until),
            None => false,
        };
        out.plays = out.plays.saturating_add(1);
        if plays.is_last(played.as_str()) {
            return plays.goes_with(with.as_str());
        }
        plays.tell(out)?;
        plays.last = Some(Play { with, text: played });
        Ok(())
    }
}

impl Plays {
    /// Whether the last play was the same.
    fn is_last(&self, text: &str) -> bool {
        match &self.last {
            Some(last) => last.text.as_str() == text,
            None => false,
        }
    }

    /// The last play is that of one more choice.
    fn goes_with(&mut self, with: &str) -> Result<()> {
        if let Some((_, choice)) = with.rsplit_once("=")
            && let Some(last) = &mut self.last
        {
            write!(last.with, "|{choice}")?;
        }
        Ok(())
    }

    /// Writes the last play. What is the same as in the first isn't written again.
    fn tell(&mut self, out: &mut Transcript) -> Result<()> {
        let Some(last) = self.last.take() else {
            return Ok(());
        };
        match &self.first {
            None => {
                writeln!(out.text, "with {}", last.with)?;
                out.text.push_str(last.text.as_str())?;
                self.first = Some(last.text);
            }
            Some(first) => out.add_changed(last.with.as_str(), first.as_str(), last.text.as_str())?,
        }
        Ok(())
    }
}

/// The values of a line, with this number in the place of numbers, and of choices the one of this place.
/// None where there is none.
fn chosen(alloc: Global, with: &str, number: u64, choice: usize) -> Result<Option<String>> {
    let mut out = String::new(alloc);
    if choice > 0 && !with.contains("|") {
        return Ok(None);
    }
    for pair in with.split_whitespace() {
        let Some((key, values)) = pair.split_once("=") else {
            bail!("{pair} gives no value");
        };
        if !out.is_empty() {
            out.push_str(" ")?;
        }
        match choice_of(values, choice) {
            Some("1..") => write!(out, "{key}={number}")?,
            Some(value) => write!(out, "{key}={value}")?,
            None => return Ok(None),
        }
    }
    Ok(Some(out))
}

/// The choice of this place, or what stands for all places.
fn choice_of(values: &str, choice: usize) -> Option<&str> {
    if values.contains("|") {
        values.split("|").nth(choice)
    } else {
        Some(values)
    }
}

/// Whether the first line of a play with the call of this line is this line.
fn answers_first(played: &str, until: &str) -> bool {
    let call = match until.split_once(" -> ") {
        Some((call, _)) => call,
        None => until,
    };
    for line in played.lines() {
        if let Some((made, _)) = line.split_once(" -> ")
            && made == call
        {
            return line == until;
        }
    }
    false
}

impl Transcript {
    /// Adds the lines that are others than with the first values.
    fn add_changed(&mut self, with: &str, first: &str, played: &str) -> Result<()> {
        if played == first {
            writeln!(self.text, "with {with}: the same")?;
            return Ok(());
        }
        writeln!(self.text, "with {with}: the same, but")?;
        let mut before = first.lines();
        for line in played.lines() {
            match before.next() {
                Some(old) if old == line => {}
                _ => writeln!(self.text, "{line}")?,
            }
        }
        Ok(())
    }
}

/// Makes these calls on a bench of their own, and writes each with its answer.
pub fn play_on<B: Bench + Drop>(
    alloc: Global,
    bench: B,
    with: &str,
    calls: &[Line],
) -> Result<String> {
    let mut bench = bench;
    make_calls(alloc, &mut bench, with, calls)
}

fn make_calls<B: Bench>(
    alloc: Global,
    bench: &mut B,
    with: &str,
    calls: &[Line],
) -> Result<String> {
    let mut out = String::new(alloc);
    for line in calls {
        let answer = answer(alloc, bench, with, line).context(format_args!(
            "line {}, {:?}",
            line.number, line.text
        ))?;
        if answer.is_empty() {
            writeln!(out, "{}", line.text)?;
        } else {
            writeln!(out, "{} -> {answer}", line.text)?;
        }
    }
    Ok(out)
}

fn answer<B: Bench>(alloc: Global, bench: &mut B, with: &str, line: &Line) -> Result<String> {
    let mut words = Vec::new(alloc);
    for word in line.text.split_whitespace() {
        words.push(value_of(word, with)?)?;
    }
    match words.as_slice().split_first() {
        Some((name, words)) => bench.call(alloc, name, words),
        None => bail!("no call"),
    }
}

/// The value that `with` gives to a word that begins with `$`. Other words stand for themselves.
fn value_of<'a>(word: &'a str, with: &'a str) -> Result<&'a str> {
    let Some(name) = word.strip_prefix("$") else {
        return Ok(word);
    };
    for pair in with.split_whitespace() {
        if let Some((key, value)) = pair.split_once("=")
            && key == name
        {
            return Ok(value);
        }
    }
    bail!("{word} has no value")
}
