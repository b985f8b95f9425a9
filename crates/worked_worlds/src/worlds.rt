//! A world, and its steps.
ghost use Rattle.std.specs.Prelude.{◌≡◌, IfOk};
ghost use Rattle.loglet_api.specs.Step.{CanBegin};
ghost use Rattle.world_steps.specs.Laws.{BringsSpelled};

use crate::pictures;
use crate::steps::{Place, Steps};
use anyhow::{Context, Result, bail};
use delos_types::numbers::Ticket;
use loglet_api::call::Op;
use quorum_cell::operation::{CellStep, Outcome, Wish};
use std::alloc::Global;
use striped_cells::motion::Motion;
use worked_cases::bench::Bench;
use worked_cases::entries::entry;
use worked_cases::words::{bytes, number, silent};
use world_steps::shape::{QuorumShape, Shape};
use world_steps::step::{ChainChange, WorldStep};
use world_steps::world::{Shelf, World, run_steps};

/// What each quorum cell has room for.
const ROOM: u64 = 64;

/// How many operations each quorum cell takes: a striped cell takes a quarter of that.
const LIMIT: u64 = 1024;

/// No schedule has more servers in a quorum cell.
const MOST_SERVERS: u32 = 7;

/// How many requests and replies were sent in a quorum cell.
#[derive(Drop)]
struct Sent {
    place: Place,
    requests: u64,
    replies: u64,
}

/// A world, what its cells are made of, and how many messages were sent in each quorum cell.
#[derive(Drop)]
pub struct WorldBench {
    world: World,
    shapes: Vec<Shape>,
    nodes: u32,
    sent: Vec<Sent>,
    /// The picture that was drawn last, where each step is watched.
    drawn: Option<String>,
}

impl WorldBench {
    pub fn new(alloc: Global) -> Result<WorldBench> {
        let mut shelf = Shelf::new(alloc);
        let mut shapes = Vec::new(alloc);
        add_shape(&mut shelf, &mut shapes, "3")?;
        WorldBench::of(alloc, shelf, shapes, 0)
    }

    /// A world of these cells, and of so many nodes.
    fn of(alloc: Global, shelf: Shelf, shapes: Vec<Shape>, nodes: u32) -> Result<WorldBench> {
        if shelf.len() < 1 || shelf.len() > 64 {
            bail!("a world has 1 to 64 cells");
        }
        let world = World::new(alloc, &shelf, nodes)?;
        Ok(WorldBench {
            world,
            shapes,
            nodes,
            sent: Vec::new(alloc),
            drawn: None,
        })
    }

    /// Takes the steps, and tells what a client was told, if one was.
    fn run(&mut self, alloc: Global, steps: &Steps) -> Result<String> {
        let before = self.world.events().len();
        self.world = run_steps(alloc, &self.world, steps.as_slice())?;
        match self.world.events().get(before) {
            Some(event) => pictures::told(alloc, &event.answer),
            None => silent(alloc),
        }
    }

    /// Takes one step.
    fn one(&mut self, alloc: Global, step: WorldStep) -> Result<String>
        requires { BringsSpelled step }
    {
        let mut steps = Steps::new(alloc);
        steps.push(step)?;
        self.run(alloc, &steps)
    }

    /// A client begins an operation on a cell.
    fn begin(&mut self, alloc: Global, words: &[&str]) -> Result<String> {
        let who = short(words, 0)?;
        let cell = short(words, 1)?;
        let Some(name) = words.get(2) else {
            bail!("an operation is wanted");
        };
        let op = op_of(alloc, name, &words[3..])?;
        self.one(alloc, WorldStep::Begin { who, cell, op })
    }

    /// An operation sends to a server. Where it is heard, the server answers, and the operation hears
    /// the answer.
    fn send(&mut self, alloc: Global, words: &[&str], heard: bool) -> Result<String> {
        let place = place(alloc, words)?;
        let ticket = Ticket::new(word(words, 1)?);
        let server = short(words, 2)?;
        let Some(name) = words.get(3) else {
            bail!("a wish is wanted");
        };
        let wish = wish_of(name, &words[4..])?;
        let (requests, replies) = self.count(&place, 1, if heard { 1 } else { 0 })?;
        let mut steps = Steps::new(alloc);
        steps.inside(alloc, &place, CellStep::Send(ticket, server, wish))?;
        if heard {
            steps.inside(alloc, &place, CellStep::RequestComes(requests))?;
            steps.inside(alloc, &place, CellStep::ReplyComes(replies))?;
        }
        self.run(alloc, &steps)
    }

    /// So many more requests and replies are sent at a place: how many were sent before.
    fn count(&mut self, place: &Place, requests: u64, replies: u64) -> Result<(u64, u64)> {
        for sent in &mut self.sent {
            if sent.place == *place {
                let before = (sent.requests, sent.replies);
                sent.requests = sent.requests.wrapping_add(requests);
                sent.replies = sent.replies.wrapping_add(replies);
                return Ok(before);
            }
        }
        self.sent.push(Sent {
            place: place.clone()?,
            requests,
            replies,
        })?;
        Ok((0, 0))
    }

    /// A message of this number moves in a cell, or a server comes up again or doesn't.
    fn move_inside(&mut self, alloc: Global, name: &str, words: &[&str]) -> Result<String> {
        let place = place(alloc, words)?;
        let which = word(words, 1)?;
        let step = match name {
            "comes" => CellStep::RequestComes(which),
            "heard" => CellStep::ReplyComes(which),
            "stops" => CellStep::RequestStops(which),
            "lost" => CellStep::Lose(which),
            _ => {
                let server = short(words, 1)?;
                match comes_up(words, 2)? {
                    Some(kept) => CellStep::Restart { server, kept },
                    None => CellStep::RestartFails(server),
                }
            }
        };
        if matches!(step, CellStep::RequestComes(_) | CellStep::RequestStops(_)) {
            self.count(&place, 0, 1)?;
        }
        let mut steps = Steps::new(alloc);
        steps.inside(alloc, &place, step)?;
        self.run(alloc, &steps)
    }

    /// In a striped cell an operation asks the next stripe, or hears what came of that.
    fn go_round(&mut self, alloc: Global, words: &[&str], asks: bool) -> Result<String> {
        let place = place(alloc, words)?;
        let ticket = Ticket::new(word(words, 1)?);
        let motion = if asks {
            Motion::Ask(ticket)
        } else {
            Motion::Hear(ticket)
        };
        let mut steps = Steps::new(alloc);
        steps.stir(alloc, &place, motion)?;
        self.run(alloc, &steps)
    }

    /// An operation of a quorum cell comes to its end: of a stripe too.
    fn decide(&mut self, alloc: Global, words: &[&str]) -> Result<String> {
        let place = place(alloc, words)?;
        let ticket = Ticket::new(word(words, 1)?);
        let Some(name) = words.get(2) else {
            bail!("an outcome is wanted");
        };
        let outcome = outcome_of(name, &words[3..])?;
        let mut steps = Steps::new(alloc);
        steps.inside(alloc, &place, CellStep::Decide(ticket, outcome))?;
        self.run(alloc, &steps)
    }

    /// The client of an operation that came to its end is told.
    fn take(&mut self, alloc: Global, words: &[&str]) -> Result<String> {
        let who = short(words, 0)?;
        let cell = short(words, 1)?;
        let ticket = Ticket::new(word(words, 2)?);
        self.one(alloc, WorldStep::Take { who, cell, ticket })
    }

    /// An operation comes to its end, and its client is told.
    fn end(&mut self, alloc: Global, words: &[&str]) -> Result<String> {
        let who = short(words, 0)?;
        let cell = short(words, 1)?;
        let ticket = Ticket::new(word(words, 2)?);
        let Some(name) = words.get(3) else {
            bail!("an outcome is wanted");
        };
        let outcome = outcome_of(name, &words[4..])?;
        let place = Place {
            cell,
            path: Vec::new(alloc),
        };
        let mut steps = Steps::new(alloc);
        steps.inside(alloc, &place, CellStep::Decide(ticket, outcome))?;
        steps.push(WorldStep::Take { who, cell, ticket })?;
        self.run(alloc, &steps)
    }

    fn forget(&mut self, alloc: Global, words: &[&str]) -> Result<String> {
        let who = short(words, 0)?;
        let cell = short(words, 1)?;
        let ticket = Ticket::new(word(words, 2)?);
        self.one(alloc, WorldStep::Forget { who, cell, ticket })
    }

    /// A client writes the chain, and the register may stop inside the write.
    fn write(&mut self, alloc: Global, words: &[&str], stops: bool) -> Result<String> {
        let who = short(words, 0)?;
        let expected = word(words, 1)?;
        let Some(name) = words.get(2) else {
            bail!("a change is wanted");
        };
        let to = word(words, 3)?;
        let change = match *name {
            "extend" => ChainChange::Extend(to),
            "raise" => ChainChange::Raise(to),
            _ => bail!("a chain isn't changed so"),
        };
        if stops {
            return self.one(
                alloc,
                WorldStep::WriteStops {
                    who,
                    expected,
                    change,
                },
            );
        }
        self.one(
            alloc,
            WorldStep::WriteChain {
                who,
                expected,
                change,
            },
        )
    }

    /// A step of the register or of a node.
    fn other(&mut self, alloc: Global, name: &str, words: &[&str]) -> Result<String> {
        let number = short(words, 0)?;
        let step = match name {
            "read" => WorldStep::ReadChain(number),
            "mend" => match comes_up(words, 1)? {
                Some(kept) => WorldStep::MendRegister { who: number, kept },
                None => WorldStep::MendFails(number),
            },
            "apply" => WorldStep::Apply(number),
            "halt" => WorldStep::StopNode(number),
            "revive" => WorldStep::RestartNode {
                node: number,
                kept: kept(words, 1)?,
            },
            _ => bail!("a world has no step {name}"),
        };
        self.one(alloc, step)
    }

    /// Each message ever sent in a quorum cell comes again, one after another: the world looks the same after each.
    fn again(&mut self, alloc: Global, words: &[&str]) -> Result<String> {
        let place = place(alloc, words)?;
        let (requests, replies) = self.count(&place, 0, 0)?;
        let before = self.show(alloc)?;
        for request in 0..requests {
            let step = CellStep::RequestComes(request);
            self.come_again(alloc, &place, step, before.as_str())?;
        }
        for reply in 0..replies {
            let step = CellStep::ReplyComes(reply);
            self.come_again(alloc, &place, step, before.as_str())?;
        }
        // (each request that came was answered once more)
        self.count(&place, 0, requests)?;
        Ok(format!(in alloc; "{requests} requests and {replies} replies, the same after each")?)
    }

    /// A message comes again, after which the world is to look as it did before.
    fn come_again(
        &mut self,
        alloc: Global,
        place: &Place,
        step: CellStep,
        before: &str,
    ) -> Result<()> {
        let mut steps = Steps::new(alloc);
        steps.inside(alloc, place, step)?;
        self.run(alloc, &steps)?;
        let after = self.show(alloc)?;
        if after.as_str() != before {
            bail!("a message that came again changed the world: {after}");
        }
        Ok(())
    }

    /// The cells, the chain and the nodes, on a line.
    fn show(&self, alloc: Global) -> Result<String> {
        self.draw(alloc, "; ")
    }

    fn draw(&self, alloc: Global, between: &str) -> Result<String> {
        pictures::draw(
            alloc,
            &self.world,
            self.shapes.as_slice(),
            self.nodes,
            between,
        )
    }

    /// From now on the world is drawn after each step that changes its picture.
    fn watch(&mut self, alloc: Global) -> Result<String> {
        self.drawn = Some(String::new(alloc));
        silent(alloc)
    }

    /// What a client was told, and the picture of a watched world, unless it is as it was drawn last.
    fn look(&mut self, alloc: Global, told: String) -> Result<String> {
        let Some(last) = &self.drawn else {
            return Ok(told);
        };
        let picture = self.draw(alloc, "\n  ")?;
        if picture == *last {
            return Ok(told);
        }
        let first = if told.is_empty() {
            "now"
        } else {
            told.as_str()
        };
        let seen = format!(in alloc; "{first}\n  {picture}")?;
        self.drawn = Some(picture);
        Ok(seen)
    }

    /// So many nodes, and the servers of each cell.
    fn renew(&mut self, alloc: Global, words: &[&str]) -> Result<String> {
        let [_, cells @ ..] = words else {
            bail!("a world has nodes and cells");
        };
        let nodes = short(words, 0)?;
        let mut shelf = Shelf::new(alloc);
        let mut shapes = Vec::new(alloc);
        for word in cells {
            add_shape(&mut shelf, &mut shapes, word)?;
        }
        *self = WorldBench::of(alloc, shelf, shapes, nodes)?;
        silent(alloc)
    }

    fn play(&mut self, alloc: Global, name: &str, words: &[&str]) -> Result<String> {
        match name {
            "world" => self.renew(alloc, words),
            "show" => self.show(alloc),
            "watch" => self.watch(alloc),
            "again" => self.again(alloc, words),
            "begin" => self.begin(alloc, words),
            "ask" => self.send(alloc, words, true),
            "send" => self.send(alloc, words, false),
            "comes" | "heard" | "stops" | "lost" | "restart" => {
                self.move_inside(alloc, name, words)
            }
            "end" => self.end(alloc, words),
            "turn" => self.go_round(alloc, words, true),
            "gather" => self.go_round(alloc, words, false),
            "decide" => self.decide(alloc, words),
            "take" => self.take(alloc, words),
            "forget" => self.forget(alloc, words),
            "write" => self.write(alloc, words, false),
            "tear" => self.write(alloc, words, true),
            _ => self.other(alloc, name, words),
        }
    }
}

impl Bench for WorldBench {
    fn call(&mut self, alloc: Global, name: &str, words: &[&str]) -> Result<String> {
        let told = self.play(alloc, name, words)?;
        self.look(alloc, told)
    }
}

/// One more cell: `3` has three servers, `2x3` two stripes of three servers, and `2x2x3` two such
/// stripes.
fn add_shape(shelf: &mut Shelf, shapes: &mut Vec<Shape>, word: &str) -> Result<()> {
    let mut numbers = word.rsplit('x');
    let Some(servers) = numbers.next() else {
        bail!("a number of servers is wanted");
    };
    let servers = servers.parse::<u32>()?;
    if servers < 1 || servers > MOST_SERVERS {
        bail!("a quorum cell has 1 to 7 servers here");
    }
    let each = QuorumShape {
        servers,
        room: ROOM,
        limit: LIMIT,
    };
    let shape = match (numbers.next(), numbers.next()) {
        (None, _) => Shape::Quorum(each),
        (Some(stripes), None) => Shape::Striped(stripes_in(stripes)?, each),
        (Some(inner), Some(stripes)) => {
            Shape::Nested(stripes_in(stripes)?, stripes_in(inner)?, each)
        }
    };
    shelf.add(shape)?;
    shapes.push(shape)?;
    Ok(())
}

/// No schedule has more stripes than two of a cell.
fn stripes_in(word: &str) -> Result<u8>
    ensures { IfOk result (λ n. n ≡ 2) }
{
    if word.parse::<u8>()? != 2 {
        bail!("a striped cell has 2 stripes here");
    }
    Ok(2)
}

/// Where it is.
fn place(alloc: Global, words: &[&str]) -> Result<Place> {
    let Some(word) = words.first() else {
        bail!("a place is wanted");
    };
    Place::parse(alloc, word)
}

/// The number at a place.
fn word(words: &[&str], place: usize) -> Result<u64> {
    let text = words.get(place).context("a number is wanted")?;
    Ok(text.parse::<u64>()?)
}

/// The number of a client, a cell, a server or a node.
fn short(words: &[&str], place: usize) -> Result<u32> {
    let text = words.get(place).context("a number is wanted")?;
    Ok(text.parse::<u32>()?)
}

/// Whether a write is kept.
fn kept(words: &[&str], place: usize) -> Result<bool> {
    let text = words.get(place).context("whether it is kept is wanted")?;
    Ok(text.parse::<bool>()?)
}

/// Whether what comes up again has kept its write, or nothing where it doesn't come up.
fn comes_up(words: &[&str], place: usize) -> Result<Option<bool>> {
    if words.get(place).is_some_and(|word| *word == "fails") {
        return Ok(None);
    }
    Ok(Some(kept(words, place)?))
}

fn op_of(alloc: Global, name: &str, words: &[&str]) -> Result<Op>
    ensures { IfOk result CanBegin }
{
    match name {
        "append" => Ok(Op::Append(entry(alloc, bytes(alloc, words)?.as_slice())?)),
        "settle" => Ok(Op::Settle(number(words)?)),
        "read" => Ok(Op::Read(number(words)?)),
        "trim" => Ok(Op::Trim(number(words)?)),
        "tail" => Ok(Op::Tail),
        "seal" => Ok(Op::Seal),
        _ => bail!("there is no operation {name}"),
    }
}

fn wish_of(name: &str, words: &[&str]) -> Result<Wish> {
    match name {
        "store" => Ok(Wish::Store(number(words)?)),
        "repair" => Ok(Wish::Repair(number(words)?)),
        "seal" => Ok(Wish::Seal),
        "tail" => Ok(Wish::Tail),
        "read" => Ok(Wish::Read),
        "trim" => Ok(Wish::Trim),
        _ => bail!("an operation doesn't send {name}"),
    }
}

fn outcome_of(name: &str, words: &[&str]) -> Result<Outcome> {
    match name {
        "open" => Ok(Outcome::OpenTail(number(words)?)),
        "sealed" => Ok(Outcome::SealedTail(number(words)?)),
        "lack" => Ok(Outcome::NoQuorum(short(words, 0)?)),
        _ => outcome_alone(name),
    }
}

fn outcome_alone(name: &str) -> Result<Outcome> {
    match name {
        "reached" => Ok(Outcome::Reached),
        "shut" => Ok(Outcome::Shut),
        "found" => Ok(Outcome::Found),
        "gone" => Ok(Outcome::Gone),
        "beyond" => Ok(Outcome::Beyond),
        "trimmed" => Ok(Outcome::TrimDone),
        _ => bail!("an operation doesn't come to {name}"),
    }
}
