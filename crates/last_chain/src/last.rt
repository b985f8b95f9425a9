//! The chain is read a last time.
ghost use Rattle.std.specs.Prelude.{◌≡◌, ◌≤◌, true, IfOk, OnOk};
ghost use Rattle.legal_journal.specs.Journal.{IsLegal, state_of};
ghost use Rattle.turn_scopes.specs.Alone.{OwnSince};
ghost use Rattle.last_chain.specs.Gifts.{read_gift, write_gift, gift_of, given_last};
ghost use Rattle.last_chain.specs.Last.{IsLast, Watches, Makes, AsksOnce, Asked, Opened, OpensOnce};

use chain_map::change::first_chain;
use delos_types::chain::Chain;
use fabric_core::fabric::Fabric;
use legal_journal::events::{Event, FabricAnswer, FabricCall};
use legal_journal::rules::Rules;
use loglet_api::loglet::Loglet;
use register_api::Register;
use std::alloc::{AllocError, Global};

/// What the register gave last, and whether it is down.
#[derive(Drop)]
pub struct LastChain {
    pub version: u64,
    pub chain: Chain,
    pub down: bool,
}

/// A fabric whose chain was read a last time, and what that came to. The one error is want of memory.
#[derive(Drop)]
pub struct Last<L: Loglet, R: Register, P: Rules> {
    pub fabric: Fabric<L, R, P>,
    pub answer: Result<LastChain, AllocError>,
}

/// What a read gave.
fn gift_of_read(answer: &FabricAnswer) -> Result<Option<(u64, Chain)>, AllocError>
    ensures { IfOk result (λ gift. gift ≡ read_gift answer.now) }
{
    match answer {
        FabricAnswer::At(version, chain) => Ok(Some((*version, chain.clone()?))),
        _ => Ok(None),
    }
}

/// What a write of this chain gave.
fn gift_of_write(chain: &Chain, answer: &FabricAnswer) -> Result<Option<(u64, Chain)>, AllocError>
    ensures { IfOk result (λ gift. gift ≡ write_gift chain.now answer.now) }
{
    match answer {
        FabricAnswer::Written(version) => Ok(Some((*version, chain.clone()?))),
        FabricAnswer::Conflict(version, standing) => Ok(Some((*version, standing.clone()?))),
        _ => Ok(None),
    }
}

/// What an event gave.
fn gift(event: &Event) -> Result<Option<(u64, Chain)>, AllocError>
    ensures { IfOk result (λ gift. gift ≡ gift_of event.now.call event.now.answer) }
{
    match &event.call {
        FabricCall::ReadChain => gift_of_read(&event.answer),
        FabricCall::WriteChain(_, chain) => gift_of_write(chain, &event.answer),
        _ => Ok(None),
    }
}

/// The version and the chain that were given last; version 1 and the first chain, where nothing was.
///
/// Cost: a walk back over the journal, as far as to the event that gave them.
pub fn last_given(alloc: Global, journal: &[Event]) -> Result<(u64, Chain), AllocError>
    ensures { IfOk result (λ given. given ≡ given_last journal.now) }
{
    let mut left = journal.len();
    while left > 0 {
        left -= 1;
        if let Some(given) = gift(&journal[left])? {
            return Ok(given);
        }
    }
    Ok((1, first_chain(alloc)?))
}

/// Reads the chain. None where the register is down.
fn ask<L: Loglet, R: Register, P: Rules>(
    fabric: &mut Fabric<L, R, P>,
    who: u32,
) -> Result<Option<LastChain>, AllocError>
    ensures legal { IsLegal P.law fabric.new.journal }
    ensures watches { Watches who fabric.old.journal fabric.new.journal }
    ensures makes { OnOk result (Makes who FabricCall.ReadChain fabric.old.journal fabric.new.journal) }
    ensures asked { IfOk result (λ last. Asked fabric.old last fabric.new) }
{
    let _before = fabric.journal();
    let answer = fabric.apply(who, FabricCall::ReadChain);
    let _after = fabric.journal();
    match answer {
        FabricAnswer::At(version, chain) => {
            return Ok(Some(LastChain {
                version,
                chain,
                down: false,
            }));
        }
        FabricAnswer::Down => return Ok(None),
        _ => return Err(AllocError),
    }
}

/// Opens the register again, with word 0.
fn reopen<L: Loglet, R: Register, P: Rules>(
    fabric: &mut Fabric<L, R, P>,
    who: u32,
) -> Result<(), AllocError>
    ensures legal { IsLegal P.law fabric.new.journal }
    ensures watches { Watches who fabric.old.journal fabric.new.journal }
    ensures makes { OnOk result (Makes who (FabricCall.MendMeta 0) fabric.old.journal fabric.new.journal) }
    ensures opened { OnOk result (Opened fabric.new) }
{
    let answer = fabric.apply(who, FabricCall::MendMeta(0));
    let _after = fabric.journal();
    match answer {
        FabricAnswer::Set(_) => return Ok(()),
        _ => return Err(AllocError),
    }
}

/// Reads the chain. A register that is down is opened again once, with word 0, and stays as it is then. The one error is want of
/// memory.
///
/// Cost: at most two events.
pub fn open_if_down<L: Loglet, R: Register, P: Rules>(
    fabric: &mut Fabric<L, R, P>,
    who: u32,
) -> Result<(), AllocError>
    ensures legal { IsLegal P.law fabric.new.journal }
    ensures watches { Watches who fabric.old.journal fabric.new.journal }
    ensures opens { OnOk result (OpensOnce fabric.old fabric.new) }
{
    let Some(_last) = ask(fabric, who)? else {
        return reopen(fabric, who);
    };
    Ok(())
}

/// The register is down still: what it gave last is found in the journal.
fn find<L: Loglet, R: Register, P: Rules>(
    alloc: Global,
    fabric: &Fabric<L, R, P>,
) -> Result<LastChain, AllocError>
    requires down { fabric.now.register.down ≡ true }
    requires opened { Opened fabric.now }
    ensures { IfOk result (λ last. IsLast last fabric.now) }
{
    let (version, chain) = last_given(alloc, fabric.journal())?;
    Ok(LastChain {
        version,
        chain,
        down: true,
    })
}

/// Reads the chain, where need be once more.
fn read<L: Loglet, R: Register, P: Rules>(
    alloc: Global,
    who: u32,
    fabric: &mut Fabric<L, R, P>,
) -> Result<LastChain, AllocError>
    ensures legal { IsLegal P.law fabric.new.journal }
    ensures watches { Watches who fabric.old.journal fabric.new.journal }
    ensures asks { OnOk result (AsksOnce fabric.old.journal fabric.new.journal) }
    ensures last { IfOk result (λ last. IsLast last fabric.new) }
{
    if let Some(last) = ask(fabric, who)? {
        return Ok(last);
    }
    reopen(fabric, who)?;
    if let Some(last) = ask(fabric, who)? {
        return Ok(last);
    }
    find(alloc, fabric)
}

/// Reads the chain. A register that is down is opened again once, with word 0, and the chain is read again. Where it is
/// down still, what it gave last is found in the journal.
///
/// Cost: at most three events; and a walk back over the journal, once, where the register stays down.
pub fn read_last<L: Loglet, R: Register, P: Rules>(
    alloc: Global,
    who: u32,
    fabric: Fabric<L, R, P>,
) -> Last<L, R, P>
    ensures legal { IsLegal P.law result.fabric.journal }
    ensures since { OwnSince who fabric.journal result.fabric.journal }

    // What the journal tells of the loglets stays.
    ensures cells { (state_of result.fabric.journal).cells ≡ (state_of fabric.journal).cells }
    ensures asks { OnOk result.answer (AsksOnce fabric.journal result.fabric.journal) }
    ensures last { IfOk result.answer (λ last. IsLast last result.fabric) }
{
    let mut fabric = fabric;
    let answer = read(alloc, who, &mut fabric);
    Last { fabric, answer }
}
