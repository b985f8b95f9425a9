//! A cell: its servers, every message ever sent, and its operations.
ghost use Rattle.std.specs.Prelude.{◌≡◌, ℕ, ◌+◌, ◌<◌, ◌≤◌, length, OnOk, IfOk, Some, not, IsTrue, slice_get, option_map};
ghost use Rattle.quorum_cell.specs.Servers.{told as told_by, is_sealed as is_sealed_by};
ghost use Rattle.quorum_cell.specs.Cells.{start, operation, server as server_of, down as down_of, is_shut as is_shut_by};
ghost use Rattle.quorum_cell.specs.Steps.{is_full as is_full_by, wanted as wanted_by, cut_after as cut_by, entries_after, begun as begun_by, admit as admitted, with_fault as faulted, begin as begun, ask_for as asked, send as after_send, request_comes as after_request, request_stops as after_stop, waits as waits_of, reply_comes as after_reply, lose as after_loss, restart as restarted, restart_fails as after_failed_restart, decide as after_decide, cap_after as cap_by, give as after_give, take_outcome as after_take, forget as after_forget, cell_step};
ghost use Rattle.quorum_cell.specs.Law.{IsLawful};
ghost use Rattle.cell_views.specs.Views.{counted};
ghost use Rattle.cell_steps.specs.Serving.{AskFits, served, replied};

use crate::server::ServerState;
use crate::tally::OperationState;
use delos_types::entry::Entry;
use delos_types::numbers::Ticket;
use majority_rule::majority::majority;
use quorum_cell::message::{Ask, Reply, Request, Told};
use quorum_cell::operation::{Aim, CellStep, Loss, Outcome, Wish};
use std::alloc::{AllocError, Global};
use std::marker::Model;

/// A cell.
#[derive(Drop)]
pub struct CellState {
    room: u64,
    limit: u64,
    entries: Vec<Entry>,
    servers: Vec<ServerState>,
    requests: Vec<Request>,
    replies: Vec<Reply>,
    operations: Vec<OperationState>,
    cut: u64,
    reach: u64,
    firm: u64,
    cap: Option<u64>,
    faults: Vec<u32>,
}

impl Model for CellState {
    ghost use Rattle.quorum_cell.specs.Cells.{Cell};

    ghost Value = { Cell };

    ghost view = { λ c. record {
      room = c.room;
      limit = c.limit;
      entries = c.entries.items;
      servers = c.servers.items;
      requests = c.requests.items;
      replies = c.replies.items;
      operations = c.operations.items;
      cut = c.cut;
      reach = c.reach;
      firm = c.firm;
      cap = c.cap;
      faults = c.faults.items;
    } };
}

impl Clone for CellState {
    ghost is_clone = { λ x y. y ≡ x };

    fn clone(&self) -> Result<CellState, AllocError> {
        let entries = self.entries.clone()?;
        let servers = self.servers.clone()?;
        let requests = self.requests.clone()?;
        let replies = self.replies.clone()?;
        let operations = self.operations.clone()?;
        let faults = self.faults.clone()?;
        Ok(CellState {
            room: self.room,
            limit: self.limit,
            entries,
            servers,
            requests,
            replies,
            operations,
            cut: self.cut,
            reach: self.reach,
            firm: self.firm,
            cap: self.cap,
            faults,
        })
    }
}

impl CellState {
    /// A cell of `servers` empty servers that are up, with room for `room` entries and `limit`
    /// operations.
    pub fn new(alloc: Global, servers: u32, room: u64, limit: u64) -> Result<CellState, AllocError>
        ensures { IfOk result (λ cell. cell ≡ start servers room limit) }
    {
        let all = vec![in alloc; ServerState::new(alloc); servers as usize]?;
        Ok(CellState {
            room,
            limit,
            entries: Vec::new(alloc),
            servers: all,
            requests: Vec::new(alloc),
            replies: Vec::new(alloc),
            operations: Vec::new(alloc),
            cut: 0,
            reach: 0,
            firm: 0,
            cap: None,
            faults: Vec::new(alloc),
        })
    }

    /// The server of this number.
    pub fn server(&self, number: u32) -> Option<&ServerState>
        ensures { option_map (λ server. server.now) result ≡ slice_get self.now.servers number }
    {
        self.servers.get(number as usize)
    }

    /// How many servers it has.
    pub fn servers(&self) -> u32
        requires { length self.now.servers ≤ 64 }
        ensures { result ≡ length self.now.servers }
    {
        self.servers.len() as u32
    }

    /// The greatest number of entries.
    pub fn room(&self) -> u64
        ensures { result ≡ self.now.room }
    {
        self.room
    }

    /// The greatest number of operations.
    pub fn limit(&self) -> u64
        ensures { result ≡ self.now.limit }
    {
        self.limit
    }

    /// How many faults came, in a word that stands still at its end.
    pub fn faults(&self) -> u64
        ensures { result ≡ counted (length self.now.faults) }
    {
        self.faults.len() as u64
    }

    /// How many servers are down.
    #[tactic(auto, using(majority_rule::proofs::Majorities::votes_within))]
    pub fn down(&self) -> u32
        requires { length self.now.servers ≤ 64 }
        ensures { result ≡ down_of self.now }
    {
        let mut down = 0;
        for server in 0..self.servers() {
            if !self.is_up(server) {
                down += 1;
            }
        }
        down
    }

    /// Whether more than half of the servers are sealed.
    #[tactic(auto, using(majority_rule::proofs::Majorities::votes_within))]
    pub fn is_shut(&self) -> bool
        requires { length self.now.servers ≤ 64 }
        ensures { result ≡ is_shut_by self.now }
    {
        let mut sealed = 0;
        for server in 0..self.servers() {
            if self.is_sealed(server) {
                sealed += 1;
            }
        }
        majority(self.servers()) <= sealed
    }

    fn is_sealed(&self, server: u32) -> bool
        ensures { result ≡ is_sealed_by (server_of self.now server) }
    {
        match self.servers.get(server as usize) {
            Some(server) => server.is_sealed(),
            None => false,
        }
    }

    /// How many entries were begun.
    pub fn size(&self) -> u64
        ensures { result ≡ length self.now.entries }
    {
        self.entries.len() as u64
    }

    /// How many operations were begun.
    pub fn begun(&self) -> u64
        ensures { result ≡ length self.now.operations }
    {
        self.operations.len() as u64
    }

    /// The operation of this ticket.
    pub fn operation(&self, ticket: Ticket) -> Option<&OperationState>
        ensures { option_map (λ operation. operation.now) result ≡ slice_get self.now.operations ticket }
    {
        self.operations.get(ticket.number() as usize)
    }

    /// The entries below it may be let go.
    pub fn cut(&self) -> u64
        ensures { result ≡ self.now.cut }
    {
        self.cut
    }

    /// The entry of the append that was begun at this place.
    pub fn entry(&self, place: u64) -> Option<&Entry>
        ensures { option_map (λ entry. entry.now) result ≡ slice_get self.now.entries place }
    {
        self.entries.get(place as usize)
    }

    /// The greatest length that was given to an append, a settle or an open tail.
    pub fn reach(&self) -> u64
        ensures { result ≡ self.now.reach }
    {
        self.reach
    }

    /// The greatest length that was given in any way.
    pub fn firm(&self) -> u64
        ensures { result ≡ self.now.firm }
    {
        self.firm
    }

    /// The least sealed tail that was given.
    pub fn cap(&self) -> Option<u64>
        ensures { result ≡ self.now.cap }
    {
        self.cap
    }

    /// Takes one step; one that isn't possible changes nothing. After an error a part of it may
    /// have been done.
    pub fn take_step(&mut self, alloc: Global, step: &CellStep) -> Result<(), AllocError>
        requires { IsLawful self.old }
        ensures { OnOk result (self.new ≡ cell_step self.old step.now) }
    {
        match step {
            CellStep::Begin(aim) => self.begin(alloc, aim),
            CellStep::Send(ticket, server, wish) => self.send(*ticket, *server, *wish),
            CellStep::RequestComes(number) => self.request_comes(*number),
            CellStep::RequestStops(number) => self.request_stops(*number),
            CellStep::ReplyComes(number) => self.reply_comes(*number),
            CellStep::Lose(number) => self.lose(*number),
            CellStep::Restart { server, kept } => self.restart(*server, *kept),
            CellStep::RestartFails(server) => self.restart_fails(*server),
            CellStep::Decide(ticket, outcome) => {
                self.decide(*ticket, *outcome);
                Ok(())
            }
            CellStep::Take(ticket) => {
                self.take(*ticket);
                Ok(())
            }
            CellStep::Forget(ticket) => {
                self.forget(*ticket);
                Ok(())
            }
        }
    }

    fn begin(&mut self, alloc: Global, aim: &Aim) -> Result<(), AllocError>
        requires { length self.old.servers ≤ 64 }
        ensures { OnOk result (self.new ≡ begun self.old aim.now) }
    {
        if self.is_full(aim) {
            let servers = self.servers.len() as u32;
            self.add_fault(servers)
        } else {
            self.admit(alloc, aim)
        }
    }

    /// There is no room for its entry, or no ticket left.
    pub fn is_full(&self, aim: &Aim) -> bool
        ensures { result ≡ is_full_by self.now aim.now }
    {
        let no_room = self.entries.len() as u64 == self.room;
        matches!(aim, Aim::Append(_)) && no_room || self.operations.len() as u64 == self.limit
    }

    fn admit(&mut self, alloc: Global, aim: &Aim) -> Result<(), AllocError>
        ensures { OnOk result (self.new ≡ admitted self.old aim.now) }
    {
        let operation = self.new_operation(alloc, aim)?;
        let cut = self.cut_after(aim);
        self.add_entry(aim)?;
        self.operations.push(operation)?;
        self.cut = cut;
        Ok(())
    }

    fn add_entry(&mut self, aim: &Aim) -> Result<(), AllocError>
        ensures { OnOk result (self.new ≡ record self.old { entries = entries_after self.old aim.now }) }
    {
        if let Aim::Append(entry) = aim {
            self.entries.push(entry.clone()?)?;
        }
        Ok(())
    }

    fn new_operation(&self, alloc: Global, aim: &Aim) -> Result<OperationState, AllocError>
        ensures { IfOk result (λ operation. operation ≡ begun_by self.now aim.now) }
    {
        let servers_before = self.servers.clone()?;
        let own_aim = aim.clone()?;
        Ok(OperationState {
            aim: own_aim,
            want: self.wanted(aim),
            heard: Vec::new(alloc),
            lost: Vec::new(alloc),
            servers_before,
            size_before: self.entries.len() as u64,
            reach_before: self.reach,
            firm_before: self.firm,
            faults_before: self.faults.len() as u64,
            decided: None,
            given: None,
            closed: false,
        })
    }

    /// The length that an operation waits for, or how far it trims.
    fn wanted(&self, aim: &Aim) -> u64
        ensures { result ≡ wanted_by self.now aim.now }
    {
        let size = self.entries.len() as u64;
        match aim {
            Aim::Append(_) => size + 1,
            Aim::Settle(n) => size.min(*n),
            Aim::Trim(_) => self.cut_after(aim),
            _ => 0,
        }
    }

    fn cut_after(&self, aim: &Aim) -> u64
        ensures { result ≡ cut_by self.now aim.now }
    {
        match aim {
            Aim::Trim(n) => self.cut.max(self.reach.min(*n)),
            _ => self.cut,
        }
    }

    /// One more fault: of this server, or of none where there are not so many.
    fn add_fault(&mut self, server: u32) -> Result<(), AllocError>
        ensures { OnOk result (self.new ≡ faulted self.old server) }
    {
        self.faults.push(server)?;
        Ok(())
    }

    fn is_open(&self, ticket: Ticket) -> bool
        ensures open { result ≡ not (operation self.now ticket).closed }
        ensures known { IsTrue result → ticket < length self.now.operations }
    {
        match self.operations.get(ticket.number() as usize) {
            Some(operation) => !operation.closed,
            None => false,
        }
    }

    fn waits(&self, ticket: Ticket) -> bool
        ensures waits { result ≡ waits_of (operation self.now ticket) }
        ensures known { IsTrue result → ticket < length self.now.operations }
    {
        match self.operations.get(ticket.number() as usize) {
            Some(operation) => operation.waits(),
            None => false,
        }
    }

    fn send(&mut self, ticket: Ticket, server: u32, wish: Wish) -> Result<(), AllocError>
        ensures { OnOk result (self.new ≡ after_send self.old ticket server wish) }
    {
        if !self.is_open(ticket) || self.servers.len() as u64 <= server as u64 {
            return Ok(());
        }
        let Some(ask) = self.ask_for(ticket, wish)? else {
            return Ok(());
        };
        self.requests.push(Request {
            ticket,
            server,
            ask,
        })?;
        Ok(())
    }

    /// What the wish of an operation comes to.
    fn ask_for(&self, ticket: Ticket, wish: Wish) -> Result<Option<Ask>, AllocError>
        requires { ticket < length self.now.operations }
        ensures { IfOk result (λ ask. ask ≡ asked self.now (operation self.now ticket) wish) }
    {
        let operation = &self.operations[ticket.number() as usize];
        match wish {
            Wish::Store(place) => match self.entries.get(place as usize) {
                Some(entry) => Ok(Some(Ask::Store(place, entry.clone()?))),
                None => Ok(None),
            },
            Wish::Seal => Ok(if operation.may_seal() {
                Some(Ask::Seal)
            } else {
                None
            }),
            Wish::Tail => Ok(Some(Ask::Tail)),
            Wish::Repair(place) => match self.entries.get(place as usize) {
                Some(entry) => Ok(Some(Ask::Repair(place, entry.clone()?))),
                None => Ok(None),
            },
            Wish::Read => Ok(operation.ask_read()),
            Wish::Trim => Ok(Some(Ask::Trim(self.cut))),
        }
    }

    /// The request of this number.
    fn request(&self, number: u64) -> Result<Option<Request>, AllocError>
        ensures { IfOk result (λ request. request ≡ slice_get self.now.requests number) }
    {
        match self.requests.get(number as usize) {
            Some(request) => Ok(Some(request.clone()?)),
            None => Ok(None),
        }
    }

    fn request_comes(&mut self, number: u64) -> Result<(), AllocError>
        requires { IsLawful self.old }
        ensures { OnOk result (self.new ≡ after_request self.old (slice_get self.old.requests number)) }
    {
        let Some(request) = self.request(number)? else {
            return Ok(());
        };
        self.serve(&request)
    }

    /// A request comes to its server.
    fn serve(&mut self, request: &Request) -> Result<(), AllocError>
        requires { AskFits request.now.ask }
        ensures { OnOk result (self.new ≡ after_request self.old (Some request.now)) }
    {
        let told = self.told(request)?;
        self.write(request)?;
        self.reply(request, told)
    }

    fn told(&self, request: &Request) -> Result<Told, AllocError>
        ensures { IfOk result (λ told. told ≡ told_by (server_of self.now request.now.server) request.now.ask) }
    {
        match self.servers.get(request.server as usize) {
            Some(server) => server.told(&request.ask),
            None => Ok(Told::Down),
        }
    }

    fn is_up(&self, server: u32) -> bool
        ensures up { result ≡ (server_of self.now server).up }
        ensures known { IsTrue result → server < length self.now.servers }
    {
        match self.servers.get(server as usize) {
            Some(server) => server.is_up(),
            None => false,
        }
    }

    /// The write that the request's server makes before it answers.
    fn write(&mut self, request: &Request) -> Result<(), AllocError>
        requires { AskFits request.now.ask }
        ensures { OnOk result (self.new ≡ served self.old request.now) }
    {
        if self.is_up(request.server) {
            self.servers[request.server as usize].write(&request.ask)?;
        }
        Ok(())
    }

    fn reply(&mut self, request: &Request, told: Told) -> Result<(), AllocError>
        ensures { OnOk result (self.new ≡ replied self.old request.now told) }
    {
        let ask = request.ask.clone()?;
        self.replies.push(Reply {
            ticket: request.ticket,
            server: request.server,
            ask,
            told,
        })?;
        Ok(())
    }

    fn request_stops(&mut self, number: u64) -> Result<(), AllocError>
        ensures { OnOk result (self.new ≡ after_stop self.old (slice_get self.old.requests number)) }
    {
        let Some(request) = self.request(number)? else {
            return Ok(());
        };
        self.stop(&request)
    }

    /// A request comes to its server, which stops inside the write.
    fn stop(&mut self, request: &Request) -> Result<(), AllocError>
        ensures { OnOk result (self.new ≡ after_stop self.old (Some request.now)) }
    {
        if !self.is_up(request.server) {
            return Ok(());
        }
        if !self.servers[request.server as usize].writes(&request.ask) {
            return Ok(());
        }
        let ask = request.ask.clone()?;
        self.add_fault(request.server)?;
        self.servers[request.server as usize].stop(ask);
        self.reply(request, Told::DiskFault)
    }

    fn reply_comes(&mut self, number: u64) -> Result<(), AllocError>
        ensures { OnOk result (self.new ≡ after_reply self.old (slice_get self.old.replies number)) }
    {
        let Some(reply) = self.replies.get(number as usize) else {
            return Ok(());
        };
        let reply = reply.clone()?;
        self.hear(reply)
    }

    /// A reply comes to its operation.
    fn hear(&mut self, reply: Reply) -> Result<(), AllocError>
        ensures { OnOk result (self.new ≡ after_reply self.old (Some reply)) }
    {
        let ticket = reply.ticket;
        if self.waits(ticket) {
            self.operations[ticket.number() as usize].hear(reply)?;
        }
        Ok(())
    }

    fn lose(&mut self, number: u64) -> Result<(), AllocError>
        ensures { OnOk result (self.new ≡ after_loss self.old number (slice_get self.old.requests number)) }
    {
        let Some(request) = self.requests.get(number as usize) else {
            return Ok(());
        };
        let ticket = request.ticket;
        let server = request.server;
        if self.waits(ticket) {
            self.add_fault(server)?;
            self.operations[ticket.number() as usize].lose(Loss {
                message: number,
                server,
            })?;
        }
        Ok(())
    }

    fn restart(&mut self, server: u32, kept: bool) -> Result<(), AllocError>
        requires { IsLawful self.old }
        ensures { OnOk result (self.new ≡ restarted self.old server kept) }
    {
        if self.is_up(server) || self.servers.len() as u64 <= server as u64 {
            return Ok(());
        }
        self.servers[server as usize].restart(kept)
    }

    fn restart_fails(&mut self, server: u32) -> Result<(), AllocError>
        ensures { OnOk result (self.new ≡ after_failed_restart self.old server) }
    {
        if self.is_up(server) || self.servers.len() as u64 <= server as u64 {
            return Ok(());
        }
        self.add_fault(server)
    }

    fn decide(&mut self, ticket: Ticket, outcome: Outcome)
        requires { length self.old.servers ≤ 64 }
        ensures { self.new ≡ after_decide self.old ticket outcome }
    {
        if !self.waits(ticket) {
            return;
        }
        let index = ticket.number() as usize;
        if self.operations[index].may_decide(self.servers.len() as u32, self.cut, outcome) {
            self.operations[index].decide(outcome);
        }
    }

    fn take(&mut self, ticket: Ticket)
        ensures { self.new ≡ after_take self.old ticket }
    {
        if !self.is_open(ticket) {
            return;
        }
        if let Some(outcome) = self.operations[ticket.number() as usize].decided() {
            self.give(ticket, outcome);
        }
    }

    /// An outcome is given, and the operation closed.
    fn give(&mut self, ticket: Ticket, outcome: Outcome)
        requires { ticket < length self.old.operations }
        ensures { self.new ≡ after_give self.old ticket (operation self.old ticket) (Some outcome) }
    {
        let index = ticket.number() as usize;
        let reached = self.operations[index].reached(outcome);
        let shown = self.operations[index].shown(outcome);
        self.operations[index].give(self.cut, outcome);
        self.reach = self.reach.max(reached);
        self.firm = self.firm.max(shown);
        self.cap = cap_after(self.cap, outcome);
    }

    fn forget(&mut self, ticket: Ticket)
        ensures { self.new ≡ after_forget self.old ticket }
    {
        if self.is_open(ticket) {
            self.operations[ticket.number() as usize].close();
        }
    }
}

/// The least sealed tail that was given.
fn cap_after(cap: Option<u64>, outcome: Outcome) -> Option<u64>
    ensures { result ≡ cap_by cap outcome }
{
    match (cap, outcome) {
        (None, Outcome::SealedTail(tail)) => Some(tail),
        (Some(least), Outcome::SealedTail(tail)) => Some(least.min(tail)),
        _ => cap,
    }
}
