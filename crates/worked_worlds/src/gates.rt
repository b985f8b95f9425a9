//! A gate that holds a node at a point, passed by hand.
use anyhow::{Context, Result, bail};
use gate_points::{Gate, HoldGate, Point};
use std::alloc::Global;
use worked_cases::bench::Bench;
use worked_cases::words::{number, silent, told};

/// The gate that was made last.
#[derive(Drop)]
pub struct GateBench {
    gate: Option<HoldGate>,
}

impl GateBench {
    pub fn new() -> GateBench {
        GateBench { gate: None }
    }

    /// A gate that holds node 1 as it appends, until what node 2 appended is placed, for so many turns.
    fn make(&mut self, alloc: Global, turns: u64) -> Result<String> {
        self.gate = Some(HoldGate::new(1, Point::Appending, 2, Point::Placed, turns));
        silent(alloc)
    }

    /// A node passes the gate at a point. Whether the gate has given up then.
    fn pass(&self, alloc: Global, words: &[&str]) -> Result<String> {
        let gate = self.gate.as_ref().context("no gate")?;
        if words.len() != 2 {
            bail!("a node and a point are wanted");
        }
        let node = words[0].parse::<u32>()?;
        gate.pass(node, point_of(words[1])?);
        told(alloc, gate.gave_up())
    }
}

impl Bench for GateBench {
    fn call(&mut self, alloc: Global, name: &str, words: &[&str]) -> Result<String> {
        match name {
            "gate" => self.make(alloc, number(words)?),
            "pass" => self.pass(alloc, words),
            _ => bail!("no call {name}"),
        }
    }
}

fn point_of(word: &str) -> Result<Point> {
    match word {
        "started" => Ok(Point::Started),
        "appending" => Ok(Point::Appending),
        "placed" => Ok(Point::Placed),
        "ended" => Ok(Point::Ended),
        _ => bail!("there is no point {word}"),
    }
}
