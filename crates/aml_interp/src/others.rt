// A world at whose Sleeps other methods run: what it is, and how one of them runs. As a world it
// stands in `world`.

ghost use Rattle.std.specs.Prelude.{◌≡◌, IfOk, OnErr};
ghost use Rattle.aml_bodies.specs.TreeSets.{body_props};
ghost use Rattle.aml_interp.specs.Answers.{IsReady, WereChecked};
ghost use Rattle.aml_interp.specs.Turns.{AreCallable, IsTurnCutShort, Turns, log_of};

mod world;

use crate::evaluation::evaluate_ready;
use aml_contents::Names;
use aml_paths::{NoMemory, ObjectId};
use aml_regions::RegisterFile;
use aml_verify::Checked;
use std::alloc::Global;

/// A world of registers at whose Sleeps other methods run, one at each, over registers of their own
/// (ACPI 6.5, 5.5.2 and 19.6, Sleep).
#[derive(Drop)]
pub struct Others<'a> {
    alloc: Global,
    checked: &'a Checked<'a>,
    methods: Vec<ObjectId>,
    mine: RegisterFile,
    theirs: RegisterFile,
    /// How many Sleeps were answered; the count stays at its last value.
    slept: usize,
    refused: u64,
    ghost ready: { IsReady checked.now } by { Prim.hlevel body_props },
    ghost callable: { AreCallable checked.now methods.items } by { Prim.hlevel body_props },
}

impl<'a> Others<'a> {
    /// A world of these registers, at whose Sleeps these methods run in turn, over others.
    pub fn new(
        alloc: Global,
        checked: &'a Checked<'a>,
        methods: Vec<ObjectId>,
        mine: RegisterFile,
        theirs: RegisterFile,
    ) -> Others<'a>
        requires checked { WereChecked checked.now }
        requires callable { AreCallable checked.now methods.items }
        ensures checked { result.checked.now ≡ checked.now }
        ensures methods { result.methods.items ≡ methods.items }
        ensures mine { result.mine ≡ mine }
        ensures theirs { result.theirs ≡ theirs }
        ensures slept { result.slept ≡ 0 }
        ensures refused { result.refused ≡ 0 }
    {
        Others {
            alloc,
            checked,
            methods,
            mine,
            theirs,
            slept: 0,
            refused: 0,
        }
    }

    /// The registers of whoever sleeps, with their log.
    pub fn mine(&self) -> &RegisterFile
        ensures { result.now ≡ self.now.mine }
    {
        &self.mine
    }

    /// The registers of those that run meanwhile, with their log.
    pub fn theirs(&self) -> &RegisterFile
        ensures { result.now ≡ self.now.theirs }
    {
        &self.theirs
    }

    /// How many calls were refused.
    pub fn refusals(&self) -> u64
        ensures { result ≡ self.now.refused }
    {
        self.refused
    }

    /// What names hold behind the run of the method with a place in the list, over a copy of these
    /// names: what the definition says, as `evaluate` does. None where no method has that place, or
    /// the names are not the namespace's.
    ///
    /// # Errors
    ///
    /// `NoMemory`, where memory is wanted: the others' registers stand as the run left them.
    pub fn turn(&mut self, n: usize, names: &Names) -> Result<Option<Names>, NoMemory>
        ensures turned { IfOk result (Turns self.old.checked.now self.old.methods.items n names.now
            (log_of self.old.theirs) (log_of self.new.theirs)) }
        ensures cut { OnErr result (IsTurnCutShort self.old.checked.now self.old.methods.items n
            names.now (log_of self.old.theirs) (log_of self.new.theirs)) }
        ensures checked { self.new.checked ≡ self.old.checked }
        ensures methods { self.new.methods ≡ self.old.methods }
        ensures mine { self.new.mine ≡ self.old.mine }
        ensures slept { self.new.slept ≡ self.old.slept }
        ensures refused { self.new.refused ≡ self.old.refused }
    {
        let Some(id) = self.methods.get(n).copied() else {
            return Ok(None);
        };
        if !self.checked.names_fit(names) {
            return Ok(None);
        }
        let mut left = names.copy(self.alloc)?;
        let none = Vec::new(self.alloc);
        match evaluate_ready(
            self.alloc,
            self.checked,
            &mut left,
            id,
            none,
            &mut self.theirs,
        ) {
            Ok(_) => Ok(Some(left)),
            Err(NoMemory) => Err(NoMemory),
        }
    }
}
