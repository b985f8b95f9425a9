//! What the cases of a file are about: a disk, or what is kept on one.
use crate::disks::DiskBench;
use crate::records::RecordBench;
use crate::stores::StoreBench;
use crate::workbench::Workbench;
use anyhow::Result;
use disk_model::FailDisk;
use journal_core::Journal;
use journal_pair::JournalPair;
use log_server::LogServer;
use meta_register::MetaRegister;
use std::alloc::Global;
use worked_cases::cases::{Line, Topic, play_on};

/// What the cases of a file are about.
#[derive(Clone, Copy)]
pub enum Kept {
    Disks,
    Journals,
    Pairs,
    Records,
    Registers,
    Servers,
    Stores,
}

impl Topic for Kept {
    fn name(&self) -> &'static str {
        match self {
            Kept::Disks => "disks",
            Kept::Journals => "journals",
            Kept::Pairs => "pairs",
            Kept::Records => "records",
            Kept::Registers => "registers",
            Kept::Servers => "servers",
            Kept::Stores => "stores",
        }
    }

    fn play(&self, alloc: Global, with: &str, calls: &[Line]) -> Result<String> {
        match self {
            Kept::Disks => play_on(alloc, DiskBench::new(alloc), with, calls),
            Kept::Records => play_on(alloc, RecordBench::new(alloc), with, calls),
            Kept::Journals => play_on(
                alloc,
                Workbench::<Journal<FailDisk>>::new(alloc),
                with,
                calls,
            ),
            Kept::Pairs => play_on(
                alloc,
                Workbench::<JournalPair<FailDisk>>::new(alloc),
                with,
                calls,
            ),
            Kept::Registers => play_on(
                alloc,
                Workbench::<MetaRegister<FailDisk>>::new(alloc),
                with,
                calls,
            ),
            Kept::Servers => play_on(
                alloc,
                Workbench::<LogServer<FailDisk>>::new(alloc),
                with,
                calls,
            ),
            Kept::Stores => play_on(alloc, Workbench::<StoreBench>::new(alloc), with, calls),
        }
    }
}
