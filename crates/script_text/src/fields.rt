// The words that stand for a value.
ghost use Rattle.std.specs.Prelude.{◌≡◌, ◌≤◌};
ghost use Rattle.std.specs.List.{list_all};
ghost use Rattle.script_text.specs.Gives.{Gives, text_seen};
ghost use Rattle.script_text.specs.Fields.{is_node, node_of, name_of, number_of, key_of, value_of, is_name_byte};

use crate::line::{Fault, Rule};
use delos_types::bytes::Bytes;
use delos_types::numbers::NodeId;
use std::alloc::Global;
use table_core::amount::amount_of;

fn is_node(nodes: u8, word: &[u8]) -> bool
    requires { nodes ≤ 8 }
    ensures { result ≡ is_node nodes word.now }
{
    word.len() == 2 && word[0] == b'n' && b'1' <= word[1] && word[1] <= b'0' + nodes
}

/// The node that a word names.
pub fn node_at(nodes: u8, word: &[u8]) -> Result<NodeId, Fault>
    requires { nodes ≤ 8 }
    ensures { Gives result (node_of nodes word.now) }
{
    if !is_node(nodes, word) {
        return Err(Fault::Breaks(Rule::Node));
    }
    match NodeId::new(word[1] - b'0') {
        Some(node) => Ok(node),
        None => Err(Fault::Breaks(Rule::Node)),
    }
}

fn has_name_bytes(word: &[u8]) -> bool
    ensures { result ≡ list_all is_name_byte word.now }
{
    word.iter()
        .all(|b| b.is_ascii_lowercase() || b.is_ascii_digit())
}

/// The session's name that a word is.
pub fn name_at(word: &[u8]) -> Result<&[u8], Fault>
    ensures { Gives (text_seen result) (name_of word.now) }
{
    if !word.is_empty() && word.len() <= 16 && has_name_bytes(word) {
        Ok(word)
    } else {
        Err(Fault::Breaks(Rule::Session))
    }
}

/// The number that a word is.
#[tactic(auto, unfolding(crate::specs::Fields::number_of))]
pub fn number_at(word: &[u8]) -> Result<i64, Fault>
    ensures { Gives result (number_of word.now) }
{
    match amount_of(word) {
        Some(number) => Ok(number),
        None => Err(Fault::Breaks(Rule::Number)),
    }
}

/// The key that a word is.
pub fn key_at(alloc: Global, word: &[u8]) -> Result<Bytes, Fault>
    ensures { Gives result (key_of word.now) }
{
    if word.len() > 64 {
        return Err(Fault::Breaks(Rule::Key));
    }
    Ok(Bytes::from_slice(alloc, word)?)
}

/// The value that a word is.
pub fn value_at(alloc: Global, word: &[u8]) -> Result<Bytes, Fault>
    ensures { Gives result (value_of word.now) }
{
    if word.len() > 256 {
        return Err(Fault::Breaks(Rule::Value));
    }
    Ok(Bytes::from_slice(alloc, word)?)
}
