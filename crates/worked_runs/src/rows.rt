//! Rows, read from the text that a run prints.
use crate::words::{number_behind, number_in};
use anyhow::{Context, bail};
use delos_types::bytes::Bytes;
use delos_types::cause::Cause;
use delos_types::numbers::{NodeId, Rank, SessionId};
use delos_types::place::Place;
use engine_api::content::{Content, Placed};
use row_text::row::{Outcome, Row, Who};
use std::alloc::{AllocError, Global};
use table_core::command::{Command, Found, Pair, Pairs, Reply};

/// The bytes of a word.
fn text_in(alloc: Global, word: &str) -> Result<Bytes, AllocError> {
    Bytes::from_slice(alloc, word.as_bytes())
}

/// The node of a number.
fn node_of(number: &str) -> anyhow::Result<NodeId> {
    NodeId::new(number.parse::<u8>()?).context("no such node")
}

/// A session by its name, or a node, as `n1`.
fn who_in(alloc: Global, word: &str) -> anyhow::Result<Who> {
    if let Some(number) = word.strip_prefix("n") {
        return Ok(Who::Node(node_of(number)?));
    }
    Ok(Who::Session(text_in(alloc, word)?))
}

/// A place like `@4.0`.
fn place_in(place: &str) -> anyhow::Result<Place> {
    let (pos, sub) = place.split_once('.').context("a place has a dot")?;
    Ok(Place {
        pos: number_behind("@", pos)?,
        sub: sub.parse::<u16>()?,
    })
}

/// What a command is answered, as a run prints it.
fn reply_in(alloc: Global, words: &[&str]) -> anyhow::Result<Reply> {
    Ok(match words {
        ["ok"] => Reply::Done,
        ["none"] => Reply::Absent,
        ["was", value] => Reply::Was(text_in(alloc, value)?),
        ["=", number] => Reply::Number(number.parse::<i64>()?),
        ["full"] => Reply::Full,
        ["text"] => Reply::NotNumber,
        _ => bail!("no such reply"),
    })
}

/// A command that was placed, with its reply, and maybe `late`.
fn placed_at(alloc: Global, place: &str, words: &[&str]) -> anyhow::Result<Outcome> {
    let (reply, late) = match words.split_last() {
        Some((last, reply)) if *last == "late" => (reply, true),
        _ => (words, false),
    };
    Ok(Outcome::Placed {
        place: place_in(place)?,
        reply: Some(reply_in(alloc, reply)?),
        late,
    })
}

/// A key with its value, as `x=1`.
fn pair_in(alloc: Global, word: &str) -> anyhow::Result<Pair> {
    let (key, value) = word.split_once('=').context("a pair has a =")?;
    Ok(Pair {
        key: text_in(alloc, key)?,
        value: text_in(alloc, value)?,
    })
}

/// What a read found, as a run prints it.
fn found_in(alloc: Global, words: &[&str]) -> anyhow::Result<Found> {
    Ok(match words {
        ["none"] => Found::Nothing,
        ["=", value] => Found::Value(text_in(alloc, value)?),
        ["[]"] => Found::All(Pairs::from_vec(Vec::new(alloc))),
        words => {
            let mut pairs = Vec::new(alloc);
            for word in words {
                let word = word.trim_start_matches('[').trim_end_matches(']');
                pairs.push(pair_in(alloc, word)?)?;
            }
            Found::All(Pairs::from_vec(pairs))
        }
    })
}

fn cause_in(words: &[&str]) -> anyhow::Result<Cause> {
    Ok(match words {
        ["meta"] => Cause::Meta,
        ["store"] => Cause::Store,
        ["full", id] => Cause::Full {
            id: id.parse::<u32>()?,
        },
        ["no-quorum", id, unreached] => Cause::NoQuorum {
            id: id.parse::<u32>()?,
            unreached: unreached.parse::<u32>()?,
        },
        _ => bail!("no such cause"),
    })
}

fn outcome_in(alloc: Global, words: &[&str]) -> anyhow::Result<Outcome> {
    Ok(match words {
        ["extended", version, "at", start] => Outcome::Extended {
            version: number_behind("v=", version)?,
            start: number_in(start)?,
        },
        ["moved", version] => Outcome::Moved {
            version: number_behind("v=", version)?,
        },
        ["no-spare"] => Outcome::NoSpare,
        ["alive", clean] => Outcome::Alive {
            clean: number_in(clean)?,
        },
        ["trim", trim] => Outcome::Trimmed {
            trim: number_in(trim)?,
        },
        ["retired"] => Outcome::Retired,
        ["open", cause @ ..] => Outcome::Open {
            cause: cause_in(cause)?,
        },
        [place, reply @ ..] if place.starts_with("@") => placed_at(alloc, place, reply)?,
        [after, found @ ..] if after.starts_with(">") => Outcome::Read {
            after: number_behind(">", after)?,
            found: found_in(alloc, found)?,
        },
        _ => bail!("no such answer"),
    })
}

/// A node, as `n1`.
pub(crate) fn node_in(word: &str) -> anyhow::Result<NodeId> {
    node_of(word.strip_prefix("n").context("a node begins with n")?)
}

/// A command, as in a script.
fn command_in(alloc: Global, words: &[&str]) -> anyhow::Result<Command> {
    Ok(match words {
        ["put", key, value] => Command::Put {
            key: text_in(alloc, key)?,
            value: text_in(alloc, value)?,
        },
        ["del", key] => Command::Del {
            key: text_in(alloc, key)?,
        },
        ["cas", key, old, new] => Command::Cas {
            key: text_in(alloc, key)?,
            old: text_in(alloc, old)?,
            new: text_in(alloc, new)?,
        },
        ["add", key, amount] => Command::Add {
            key: text_in(alloc, key)?,
            amount: amount.parse::<i64>()?,
        },
        _ => bail!("no such command"),
    })
}

/// What an item of a log says: `session 0 rank 1 put x 1`, `alive n1 2`, `leave n2` or `trim 2`.
fn content_in(alloc: Global, words: &[&str]) -> anyhow::Result<Content> {
    Ok(match words {
        ["session", session, "rank", rank, command @ ..] => Content::Session {
            session: SessionId::new(session.parse::<u16>()?).context("no such session")?,
            rank: Rank::new(number_in(rank)?).context("no such rank")?,
            command: Some(command_in(alloc, command)?),
        },
        ["alive", node, position] => Content::Alive {
            node: node_in(node)?,
            position: number_in(position)?,
        },
        ["leave", node] => Content::Leave {
            node: node_in(node)?,
        },
        ["trim", position] => Content::Trim {
            position: number_in(position)?,
        },
        _ => bail!("no such item"),
    })
}

/// An item of a log, from a place and what it says.
pub(crate) fn item_in(alloc: Global, place: &str, says: &[&str]) -> anyhow::Result<Placed> {
    Ok(Placed {
        place: place_in(place)?,
        content: content_in(alloc, says)?,
    })
}

/// The row of these words.
pub(crate) fn row_in(
    alloc: Global,
    number: &str,
    who: &str,
    outcome: &[&str],
) -> anyhow::Result<Row> {
    Ok(Row {
        number: number_in(number)?,
        who: who_in(alloc, who)?,
        outcome: outcome_in(alloc, outcome)?,
    })
}
