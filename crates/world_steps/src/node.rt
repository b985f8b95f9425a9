//! A node, which applies the log.
ghost use Rattle.std.specs.Prelude.{◌≡◌, false, IfOk, OnOk, length};
ghost use Rattle.world_steps.specs.Logs.{state_of};
ghost use Rattle.world_steps.specs.Parts.{no_node};
ghost use Rattle.world_steps.specs.Steps.{with_entry, restarted_node};

use delos_types::entry::Entry;
use engine_api::act::Acts;
use engine_api::acted::acted_log;
use std::alloc::{AllocError, Global};
use std::marker::Model;
use table_core::table::Table;

/// A node: the entries that it applied, the one that it was applying as it stopped, and whether it
/// is up.
#[derive(Drop)]
pub struct NodeState {
    applied: Vec<Entry>,
    torn: Option<Entry>,
    up: bool,
}

impl Model for NodeState {
    ghost use Rattle.world_steps.specs.Parts.{Node};

    ghost Value = { Node };

    ghost view = { λ n. record { applied = n.applied.items; torn = n.torn; up = n.up } };
}

impl Clone for NodeState {
    ghost is_clone = { λ x y. y ≡ x };

    fn clone(&self) -> Result<NodeState, AllocError> {
        let applied = self.applied.clone()?;
        let torn = self.torn.clone()?;
        Ok(NodeState {
            applied,
            torn,
            up: self.up,
        })
    }
}

impl NodeState {
    /// A node that applied nothing, and is up.
    pub fn new(alloc: Global) -> NodeState
        ensures { result ≡ no_node }
    {
        NodeState {
            applied: Vec::new(alloc),
            torn: None,
            up: true,
        }
    }

    pub fn is_up(&self) -> bool
        ensures { result ≡ self.now.up }
    {
        self.up
    }

    /// How many entries it applied: the position of the next.
    pub fn cursor(&self) -> u64
        ensures { result ≡ length self.now.applied }
    {
        self.applied.len() as u64
    }

    /// What acted in the entries that it applied, with the replies of the table.
    pub fn state(&self, alloc: Global) -> Result<Acts, AllocError>
        ensures { IfOk result (λ acts. acts ≡ state_of self.now) }
    {
        let acted = acted_log(alloc, Table::new(alloc), &[], 0, self.applied.as_slice())?;
        Ok(acted.acts)
    }

    /// It applies an entry, if there is one.
    pub fn apply(&mut self, entry: Option<Entry>) -> Result<(), AllocError>
        ensures { OnOk result (self.new ≡ record self.old { applied = with_entry self.old.applied entry }) }
    {
        if let Some(entry) = entry {
            self.applied.push(entry)?;
        }
        Ok(())
    }

    /// It stops, maybe inside the application of this entry.
    pub fn stop(&mut self, entry: Option<Entry>)
        ensures { self.new ≡ record self.old { torn = entry; up = false } }
    {
        self.torn = entry;
        self.up = false;
    }

    /// It comes up again, and finds that entry applied or not.
    pub fn restart(&mut self, kept: bool) -> Result<(), AllocError>
        ensures { OnOk result (self.new ≡ restarted_node self.old kept) }
    {
        let torn = self.torn.take();
        if kept {
            self.apply(torn)?;
        }
        self.up = true;
        Ok(())
    }
}
