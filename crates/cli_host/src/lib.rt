//! What a command of `ruffletuff` needs of the machine, each need under one name: files, messages, output.
#![tactic(auto)]

use std::alloc::AllocGlobal;
use std::fs::{File, Files};
use std::io::{Eprint, Print};

/// What reads and writes files needs: files, and memory for what is in them.
pub trait FileHost: Files<File = File> + AllocGlobal {}

impl<R: Files<File = File> + AllocGlobal> FileHost for R {}

/// What prints messages needs: standard error, and memory for their texts.
pub trait MessageHost: Eprint + AllocGlobal {}

impl<R: Eprint + AllocGlobal> MessageHost for R {}

/// What reads a configuration's file, and prints messages on it, needs.
pub trait ConfigHost: FileHost + MessageHost {}

impl<R: FileHost + MessageHost> ConfigHost for R {}

/// What prints results needs: standard output, and memory for their texts.
pub trait OutputHost: Print + AllocGlobal {}

impl<R: Print + AllocGlobal> OutputHost for R {}
