// What a running evaluation changes.

ghost use Rattle.std.specs.Prelude.{◌≡◌, List, None, Option, Some};
ghost use Rattle.aml_values.specs.Values as values;
ghost use Rattle.aml_values.specs.Views.{view};
ghost use Rattle.aml_regions.specs.Events.{Log};
ghost use Rattle.aml_objects.specs.Widths.{bits_of};
ghost use Rattle.aml_meaning.specs.Calls.{inside};
ghost use Rattle.aml_meaning.specs.Owns.{define_field, define_own, field_at, make_own};
ghost use Rattle.aml_meaning.specs.Parts.{with_arg, with_local};
ghost use Rattle.aml_meaning.specs.Runs.{Runs};
ghost use Rattle.aml_meaning.specs.State.{with_frame};
ghost use Rattle.aml_machine.specs.Arguments.{AreSlotsOf};
ghost use Rattle.aml_machine.specs.Views.{frame_of, made, now, value_of};

use crate::arguments::Arguments;
use crate::frame::Frame;
use crate::slots::{hold, hold_integer};
use aml_contents::Names;
use aml_meaning::BufferField;
use aml_namespace::Width;
use aml_paths::NoMemory;
use aml_values::Value;
use std::alloc::Global;
use std::mem;

/// The running method's frame, what data names hold, and the steps that are left.
#[derive(Drop)]
pub struct Machine {
    pub frame: Frame,
    pub names: Names,
    pub steps: u64,
}

impl Machine {
    /// Begins a method that is called with these arguments: a machine with its frame, which has the
    /// names and the steps until `take_back`. It takes no memory. By a call of its own, so that no
    /// frame lies on the stack of the call twice.
    #[inline(never)]
    pub fn enter(&mut self, alloc: Global, arguments: Arguments) -> Machine
        ensures enters { (log : Log) (given : List values.Value) →
            AreSlotsOf arguments given →
            now result log ≡ inside given (now self.old log) }
        ensures frame { self.new.frame ≡ self.old.frame }
        ensures steps { result.steps ≡ self.old.steps }
    {
        Machine {
            frame: Frame::new(alloc, self.frame.mutexes.of_callee(alloc), arguments),
            names: mem::replace(&mut self.names, Names::new(alloc)),
            steps: self.steps,
        }
    }

    /// Goes on in this frame where a method that it called has ended, with the names and the steps
    /// that this one left.
    pub fn take_back(&mut self, alloc: Global, ended: &mut Machine)
        ensures back { (log : Log) →
            now self.new log ≡ with_frame (now ended.old log) (frame_of self.old.frame) }
        ensures steps { self.new.steps ≡ ended.old.steps }
    {
        self.names = mem::replace(&mut ended.names, Names::new(alloc));
        self.steps = ended.steps;
    }

    /// Puts a value into a local.
    pub fn set_local(&mut self, k: u8, value: Value)
        ensures holds { (log : Log) →
            now self.new log ≡ with_local (now self.old log) k (view value) }
        ensures steps { self.new.steps ≡ self.old.steps }
    {
        hold(&mut self.frame.locals, k, value);
    }

    /// Puts an integer into a local: over the integer there, if one is.
    pub fn set_local_integer(&mut self, k: u8, number: u64)
        ensures holds { (log : Log) →
            now self.new log ≡ with_local (now self.old log) k (values.Int number) }
        ensures steps { self.new.steps ≡ self.old.steps }
    {
        hold_integer(&mut self.frame.locals, k, number);
    }

    /// Puts a value into an argument.
    pub fn set_argument(&mut self, k: u8, value: Value)
        ensures holds { (log : Log) →
            now self.new log ≡ with_arg (now self.old log) k (view value) }
        ensures steps { self.new.steps ≡ self.old.steps }
    {
        hold(&mut self.frame.args, k, value);
    }

    /// The field of a buffer that an own name is.
    pub fn own_field(&self, number: usize) -> Option<BufferField>
        ensures { (log : Log) →
            result ≡ field_at (now self.now log).frame.fields number }
    {
        *self.frame.fields.get(number)?
    }

    /// Makes an own name more.
    fn make_own(
        &mut self,
        alloc: Global,
        width: Width,
        held: Option<Value>,
        field: Option<BufferField>,
    ) -> Result<(), NoMemory>
        ensures means { (log : Log) → Runs (made result)
            (make_own (bits_of width) (value_of held) field)
            (now self.old log) (now self.new log) }
        ensures steps { self.new.steps ≡ self.old.steps }
    {
        self.frame.owns.push(alloc, width, held)?;
        match self.frame.fields.push(field) {
            Ok(()) => Ok(()),
            Err(_) => Err(NoMemory),
        }
    }

    /// Makes an own name more, which holds this value first.
    pub fn define_own(&mut self, alloc: Global, width: Width, value: Value) -> Result<(), NoMemory>
        ensures means { (log : Log) → Runs (made result)
            (define_own (bits_of width) (view value))
            (now self.old log) (now self.new log) }
        ensures steps { self.new.steps ≡ self.old.steps }
    {
        self.make_own(alloc, width, Some(value), None)
    }

    /// Makes an own name more, which is a field of a buffer.
    pub fn define_field(
        &mut self,
        alloc: Global,
        width: Width,
        field: BufferField,
    ) -> Result<(), NoMemory>
        ensures means { (log : Log) → Runs (made result)
            (define_field (bits_of width) field)
            (now self.old log) (now self.new log) }
        ensures steps { self.new.steps ≡ self.old.steps }
    {
        self.make_own(alloc, width, None, Some(field))
    }
}
