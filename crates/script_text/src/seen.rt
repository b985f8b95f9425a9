// What the lines so far have said of sessions and of nodes.
ghost use Rattle.std.specs.Prelude.{◌≡◌, ◌≤◌, ◌<◌, ◌==◌, Some, None, length, nat_lt, if◌then◌else◌};
ghost use Rattle.std.specs.List.{list_any};
ghost use Rattle.std.specs.Option.{option_copied};
ghost use Rattle.script_text.specs.Seen.{Reads, is_retired, admit, admit_new, admit_at, home_of, nothing_yet};
ghost use Rattle.script_text.specs.Forms.{admin_line};

use crate::line::{Admin, Fault, Line, Rule, Session};
use delos_types::bytes::Bytes;
use delos_types::numbers::{NodeId, SessionId};
use std::alloc::Global;
use std::marker::Model;

/// A session, and the node where it is at home.
#[derive(Drop)]
pub struct Home {
    pub session: Session,
    pub node: NodeId,
}

/// The sessions so far, at most 64, in the order of their first lines; and the nodes that have been
/// asked to leave.
#[derive(Drop)]
pub struct Seen {
    homes: Vec<Home>,
    retired: Vec<NodeId>,
}

impl Model for Seen {
    ghost use Rattle.std.specs.Prelude.{◌≤◌, length};
    ghost use Rattle.script_text.specs.Seen.{Before};

    ghost Value = { Before };

    ghost view = { λ s. record { homes = s.homes.items; retired = s.retired.items } };
}

// The number of a session that is new after so many others, if it is among the first 64.
fn next_id(count: usize) -> Option<SessionId>
    ensures { result ≡ (if nat_lt count 64 then Some count else None) }
{
    if count < 64 {
        SessionId::new(count as u16)
    } else {
        None
    }
}

fn home_of<'a>(homes: &'a [Home], name: &[u8]) -> Option<&'a Home>
    ensures { option_copied result ≡ home_of homes.now name.now }
{
    homes
        .iter()
        .find(|home| home.session.name.as_slice() == name)
}

fn contains(nodes: &[NodeId], node: NodeId) -> bool
    ensures { result ≡ list_any (λ n. n == node) nodes.now }
{
    nodes.iter().any(|n| *n == node)
}

impl Seen {
    ghost use Rattle.std.specs.Prelude.{◌≡◌};

    pub fn new(alloc: Global) -> Seen
        ensures { result ≡ nothing_yet }
    {
        Seen {
            homes: Vec::new(alloc),
            retired: Vec::new(alloc),
        }
    }

    fn is_retired(&self, node: NodeId) -> bool
        ensures { result ≡ is_retired self.now node }
    {
        contains(self.retired.as_slice(), node)
    }

    fn admit_new(&mut self, alloc: Global, node: NodeId, name: &[u8]) -> Result<Session, Fault>
        ensures { Reads self.new result (admit_new self.old node name.now) }
    {
        let Some(id) = next_id(self.homes.len()) else {
            return Err(Fault::Breaks(Rule::Sessions));
        };
        let name = Bytes::from_slice(alloc, name)?;
        let session = Session { id, name };
        let again = session.clone()?;
        self.homes.push(Home { session, node })?;
        Ok(again)
    }

    /// A line of a session at a node.
    pub fn admit(&mut self, alloc: Global, node: NodeId, name: &[u8]) -> Result<Session, Fault>
        ensures { Reads self.new result (admit self.old node name.now) }
    {
        if self.is_retired(node) {
            return Err(Fault::Breaks(Rule::Retired));
        }
        match home_of(self.homes.as_slice(), name) {
            Some(home) => {
                if home.node != node {
                    return Err(Fault::Breaks(Rule::Moved));
                }
                Ok(home.session.clone()?)
            }
            None => self.admit_new(alloc, node, name),
        }
    }

    /// A line that asks a node itself.
    pub fn ask(&mut self, node: NodeId, admin: Admin) -> Result<Line, Fault>
        ensures { Reads self.new result (admin_line self.old node admin) }
    {
        if self.is_retired(node) {
            return Err(Fault::Breaks(Rule::Retired));
        }
        match admin {
            Admin::Extend | Admin::Alive | Admin::Trim => {}
            Admin::Retire => self.retired.push(node)?,
        }
        Ok(Line::Admin { node, admin })
    }
}
