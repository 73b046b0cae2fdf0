//! The machine and the options of a run.
use log::Log;
use nmvs_operator::Options;
use nmvs_shard::HashKey;
use std::alloc::Global;
use std::fs::File;
use std::net::{Net, TcpStream};
use std::random::RandomSource;
use std::rt::{Clock, Files};
use std::sync::Wait;
use std::thread::Threads;

/// The calls of the machine that a run uses. Its log informs the operator.
pub trait Host: Files<File = File>
    + Clock
    + Threads
    + Wait
    + Net<Stream = TcpStream>
    + RandomSource
    + Eprint
    + Log {}

impl<
    R: Files<File = File>
        + Clock
        + Threads
        + Wait
        + Net<Stream = TcpStream>
        + RandomSource
        + Eprint
        + Log,
> Host for R {}

/// The runtime, the memory and the options of a run.
#[derive(Drop)]
pub struct Run<'r, 'o, H> {
    pub rt: &'r H,
    pub alloc: &'r Global,
    pub options: &'o Options,
    /// The key of the hashes in the shards' tables, drawn for this run.
    pub key: HashKey,
}
