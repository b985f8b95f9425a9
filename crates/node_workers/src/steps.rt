//! What a node does in its turns, one step each.
ghost use Rattle.std.specs.Prelude.{◌≡◌, ◌⊎◌, ◌<◌, ◌≤◌, ◌^◌, List, [], length, None};
ghost use Rattle.delos_types.specs.declared.entry.Entry.{Entry};
ghost use Rattle.engine_api.specs.Acted.{unpack_all};
ghost use Rattle.engine_api.specs.Members.{clean_position, least_position};
ghost use Rattle.virtual_log.specs.Holding.{Holds};
ghost use Rattle.base_engine.specs.Reading.{IsFront};
ghost use Rattle.base_engine.specs.Trimming.{trim_to};
ghost use Rattle.node_lines.specs.Moving.{CarriesAll, CanPack};
ghost use Rattle.node_lines.specs.Desks.{DeskOk, DesksOk, IsBound, AreBound, KeepsFrom};
ghost use Rattle.node_lines.specs.Lines.{Readies, Looks};
ghost use Rattle.node_lines.specs.Turns.{AllAnswered, AnswersAll, EndsTurn};
ghost use Rattle.node_lines.specs.Extending.{Replaces};
ghost use Rattle.node_lines.specs.Leaving.{PlaysKnown};
ghost use Rattle.node_lines.specs.Measuring.{Measures};
ghost use Rattle.node_lines.specs.Reporting.{Tells};
ghost use Rattle.node_lines.specs.Trimming.{Cuts};
ghost use Rattle.node_lines.proofs.Widening.{carries_wider, replaces_wider, plays_wider, measures_wider, tells_wider, cuts_wider, readies_wider, looks_wider, answers_wider, ends_wider};
ghost use Rattle.node_workers.specs.Ending.{ends_keeps};
ghost use Rattle.node_workers.specs.Telling.{MayTell};
ghost use Rattle.node_workers.specs.Logging.{MayLog, LogsOne, logs_wider};

use crate::step::NodeStep;
use base_engine::node::Node;
use delos_types::cause::Cause;
use delos_types::item::Item;
use fate_words::chooser::Chooser;
use legal_journal::turns::Turns;
use node_lines::desk::Desk;
use node_lines::extend::{extend_log, settle_log};
use node_lines::leave::play_known;
use node_lines::lines::{Looked, log_command, look, make_ready};
use node_lines::measure::{Measured, measure_clean, measure_least};
use node_lines::report::tell;
use node_lines::trim::cut;
use node_lines::turn::{answer_all, end_turn};
use replica_api::replica::Replica;
use std::alloc::{AllocError, Global};
use table_core::command::{Command, Query};
use virtual_log::log::VirtualLog;

/// All that the node was given is carried to its end, before the last loglet of the log is replaced.
#[derive(Drop)]
pub struct Settle;

impl NodeStep for Settle {
    type Answer = ();

    type On = ();

    ghost can = { λ law step on node. CanPack node.replica.kept };

    ghost did = { λ law step was is old new x. CarriesAll law old new };

    ghost wider = { λ scope law narrow step was is old new x h. carries_wider scope law narrow old new h };

    ghost keeps = { λ law step was is old new x h. h.moves.goes.keeps };

    fn run<T: Turns, C: Chooser, R: Replica>(
        self,
        _on: &mut (),
        node: &mut Node<VirtualLog<T, C>, R>,
    ) -> Result<(), AllocError> {
        settle_log(node)
    }
}

/// The last loglet of the log is replaced. Alone among the steps it may begin a Seal.
#[derive(Drop)]
pub struct Extend;

impl NodeStep for Extend {
    type Answer = Looked;

    type On = ();

    ghost can = { λ law step on node. Unit {0} };

    ghost seals = { λ who. Unit {0} };

    ghost did = { λ law step was is old new x. Replaces law old new x };

    ghost wider = { λ scope law narrow step was is old new x h. replaces_wider scope law narrow old new x h };

    ghost keeps = { λ law step was is old new x h. h.moves.goes.keeps };

    fn run<T: Turns, C: Chooser, R: Replica>(
        self,
        _on: &mut (),
        node: &mut Node<VirtualLog<T, C>, R>,
    ) -> Result<Looked, AllocError> {
        extend_log(node)
    }
}

/// All that the node was given is carried to its end, and a tail is found and played to. Answers how many of the log's first entries are
/// clean then.
#[derive(Drop)]
pub struct Clean;

impl NodeStep for Clean {
    type Answer = Measured;

    type On = ();

    ghost stays = { Unit {0} };

    ghost can = { λ law step on node. CanPack node.replica.kept };

    ghost did = { λ law step was is old new x. Measures law clean_position old new x };

    ghost wider = { λ scope law narrow step was is old new x h. measures_wider scope law narrow clean_position old new x h };

    ghost keeps = { λ law step was is old new x h. h.moves.goes.keeps };

    fn run<T: Turns, C: Chooser, R: Replica>(
        self,
        _on: &mut (),
        node: &mut Node<VirtualLog<T, C>, R>,
    ) -> Result<Measured, AllocError> {
        measure_clean(node)
    }
}

/// The same, but answers the least of the positions that members reported by then.
#[derive(Drop)]
pub struct Least;

impl NodeStep for Least {
    type Answer = Measured;

    type On = ();

    ghost stays = { Unit {0} };

    ghost can = { λ law step on node. CanPack node.replica.kept };

    ghost did = { λ law step was is old new x. Measures law (λ log. least_position old.nodes (unpack_all 0 log)) old new x };

    ghost wider = { λ scope law narrow step was is old new x h. measures_wider scope law narrow (λ log. least_position old.nodes (unpack_all 0 log)) old new x h };

    ghost keeps = { λ law step was is old new x h. h.moves.goes.keeps };

    fn run<T: Turns, C: Chooser, R: Replica>(
        self,
        _on: &mut (),
        node: &mut Node<VirtualLog<T, C>, R>,
    ) -> Result<Measured, AllocError> {
        measure_least(node)
    }
}

/// An entry of an item of no session is appended.
pub struct Tell {
    pub item: Item,
}

impl NodeStep for Tell {
    type Answer = Option<Cause>;

    type On = ();

    ghost can = { λ law step on node. MayTell law.may step.item node };

    ghost did = { λ law step was is old new x. Tells law old new step.item x };

    ghost wider = { λ scope law narrow step was is old new x h. tells_wider scope law narrow old new step.item x h };

    ghost keeps = { λ law step was is old new x h. h.moves.goes.keeps };

    fn run<T: Turns, C: Chooser, R: Replica>(
        self,
        _on: &mut (),
        node: &mut Node<VirtualLog<T, C>, R>,
    ) -> Result<Option<Cause>, AllocError> {
        let Tell { item } = self;
        tell(node, item)
    }
}

/// The log is played as far as it is known, or as it isn't trimmed.
#[derive(Drop)]
pub struct Play;

impl NodeStep for Play {
    type Answer = Option<Cause>;

    type On = ();

    ghost can = { λ law step on node. Unit {0} };

    ghost did = { λ law step was is old new x. PlaysKnown law old new x };

    ghost wider = { λ scope law narrow step was is old new x h. plays_wider scope law narrow old new x h };

    ghost keeps = { λ law step was is old new x h. h.moves.goes.keeps };

    fn run<T: Turns, C: Chooser, R: Replica>(
        self,
        _on: &mut (),
        node: &mut Node<VirtualLog<T, C>, R>,
    ) -> Result<Option<Cause>, AllocError> {
        play_known(node)
    }
}

/// The log is trimmed as far as the node's state says.
#[derive(Drop)]
pub struct Cut;

impl NodeStep for Cut {
    type Answer = Looked;

    type On = ();

    ghost can = { λ law step on node. (log : List Entry) → IsFront Holds node.seen log → length log ≡ node.replica.cursor → law.floor log (trim_to node.nodes node.replica) };

    ghost did = { λ law step was is old new x. Cuts law old new x };

    ghost wider = { λ scope law narrow step was is old new x h. cuts_wider scope law narrow old new x h };

    ghost keeps = { λ law step was is old new x h. h.moves.goes.keeps };

    fn run<T: Turns, C: Chooser, R: Replica>(
        self,
        _on: &mut (),
        node: &mut Node<VirtualLog<T, C>, R>,
    ) -> Result<Looked, AllocError> {
        cut(node)
    }
}

/// Whether the session's next command may be handed in.
#[derive(Drop)]
pub struct Ready;

impl NodeStep for Ready {
    type Answer = bool;

    type On = Desk;

    ghost stays = { Unit {0} };

    ghost can = { λ law step on node. CanPack node.replica.kept × DeskOk node on.session on × IsBound law.may on.session on.sent × (on.asked < 2 ^ 32) };

    ghost did = { λ law step was is old new x. Readies law old new was is x × DeskOk new was.session is × (new.replica.kept ≡ old.replica.kept) };

    ghost wider = { λ scope law narrow step was is old new x h. (readies_wider scope law narrow old new was is x h.0, h.1, h.2) };

    ghost keeps = { λ law step was is old new x h. h.0.moves.goes.keeps };

    fn run<T: Turns, C: Chooser, R: Replica>(
        self,
        on: &mut Desk,
        node: &mut Node<VirtualLog<T, C>, R>,
    ) -> Result<bool, AllocError> {
        make_ready(node, on)
    }
}

/// The answers of all sessions are taken at a tail, before their phase ends. No session is stopped.
#[derive(Drop)]
pub struct AnswerAll;

impl NodeStep for AnswerAll {
    type Answer = Option<Cause>;

    type On = Vec<Desk>;

    ghost stays = { Unit {0} };

    ghost can = { λ law step on node. CanPack node.replica.kept × DesksOk node on.items × AreBound law.may on.items };

    ghost did = { λ law step was is old new x. AnswersAll law old new was.items is.items x };

    ghost wider = { λ scope law narrow step was is old new x h. answers_wider scope law narrow old new was.items is.items x h };

    ghost keeps = { λ law step was is old new x h. h.moves.goes.keeps };

    fn run<T: Turns, C: Chooser, R: Replica>(
        self,
        on: &mut Vec<Desk>,
        node: &mut Node<VirtualLog<T, C>, R>,
    ) -> Result<Option<Cause>, AllocError> {
        answer_all(node, on.as_mut_slice())
    }
}

/// A phase ends. Where the log may be trimmed past the node, the answers of all sessions were taken before.
#[derive(Drop)]
pub struct End;

impl NodeStep for End {
    type Answer = Option<Cause>;

    type On = Vec<Desk>;

    ghost can = { λ law step on node. CanPack node.replica.kept × DesksOk node on.items × AreBound law.may on.items × (KeepsFrom law node.replica.cursor ⊎ AllAnswered node on.items) };

    ghost did = { λ law step was is old new x. EndsTurn law old new was.items is.items x };

    ghost wider = { λ scope law narrow step was is old new x h. ends_wider scope law narrow old new was.items is.items x h };

    ghost keeps = { λ law step was is old new x h. ends_keeps law old new was.items is.items x h };

    fn run<T: Turns, C: Chooser, R: Replica>(
        self,
        on: &mut Vec<Desk>,
        node: &mut Node<VirtualLog<T, C>, R>,
    ) -> Result<Option<Cause>, AllocError> {
        end_turn(node, on.as_mut_slice())
    }
}

/// A read of the session looks at the table.
pub struct Look<'a> {
    pub desk: &'a Desk,
    pub query: &'a Query,
}

impl<'a> NodeStep for Look<'a> {
    type Answer = Looked;

    type On = ();

    ghost stays = { Unit {0} };

    ghost can = { λ law step on node. CanPack node.replica.kept × DeskOk node step.desk.now.session step.desk.now × IsBound law.may step.desk.now.session step.desk.now.sent };

    ghost did = { λ law step was is old new x. Looks law old new step.desk.now step.query.now x × (new.replica.kept ≡ []) };

    ghost wider = { λ scope law narrow step was is old new x h. (looks_wider scope law narrow old new step.desk.now step.query.now x h.0, h.1) };

    ghost keeps = { λ law step was is old new x h. h.0.moves.goes.keeps };

    fn run<T: Turns, C: Chooser, R: Replica>(
        self,
        _on: &mut (),
        node: &mut Node<VirtualLog<T, C>, R>,
    ) -> Result<Looked, AllocError> {
        let Look { desk, query } = self;
        look(node, desk, query)
    }
}

/// The session's next command is handed in.
pub struct Log<'a> {
    pub alloc: Global,
    pub command: &'a Command,
}

impl<'a> NodeStep for Log<'a> {
    type Answer = ();

    type On = Desk;

    ghost can = { λ law step on node. MayLog law.may step.command.now on node };

    ghost did = { λ law step was is old new x. LogsOne law step.command.now was is old new };

    ghost wider = { λ scope law narrow step was is old new x h. logs_wider scope law narrow step.command.now was is old new h };

    ghost keeps = { λ law step was is old new x h. h.hands.goes.keeps };

    fn run<T: Turns, C: Chooser, R: Replica>(
        self,
        on: &mut Desk,
        node: &mut Node<VirtualLog<T, C>, R>,
    ) -> Result<(), AllocError> {
        let Log { alloc, command } = self;
        log_command(alloc, node, on, command)
    }
}
