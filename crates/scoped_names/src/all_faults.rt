//! All faults of a specification's names.

ghost use Rattle.std.specs.Prelude.{◌≡◌, ◌<◌, ◌≤◌, [], ◌∷◌, List, length, map, take, min, IfOk, IfSome, slice_get};
ghost use Rattle.name_table.specs.Entries.{latest};
ghost use Rattle.name_steps.specs.Steps.{definition_steps, module_body, steps_of};
ghost use Rattle.name_steps.specs.StepsKept.{flat_steps, step_of, steps_in};
ghost use Rattle.scoped_names.specs.AllFaults.{all_faults, fault_left, faults_behind};
ghost use Rattle.scoped_names.specs.Faults.{nothing_yet};
ghost use Rattle.scoped_names.specs.inner.Heard.{Heard, Hears, Passes};
ghost use Rattle.scoped_names.specs.inner.Rising.{Follows, Rises};

use crate::evaluation::declared_at;
use crate::fault::NameFault;
use crate::reader::Reader;
use idl_tree::definitions::{Definition, Module};
use idl_tree::kinds::EntryKind;
use idl_tree::spec::Spec;
use name_steps::{Step, Steps};
use std::alloc::{AllocError, Global};

/// The faults of a specification's names: the first, as many as were asked for, and how many there
/// are in all.
#[derive(Drop)]
pub struct NameFaults {
    pub most: usize,
    pub first: Vec<NameFault>,
    pub count: u64,
}

impl NameFaults {
    fn new(alloc: Global, most: usize) -> NameFaults
        ensures none { Heard result [] }
        ensures most { result.most ≡ most }
    {
        NameFaults {
            most,
            first: Vec::new(alloc),
            count: 0,
        }
    }

    /// One fault more.
    fn hear(&mut self, fault: NameFault) -> Result<(), AllocError>
        ensures heard { IfOk result (λ done. Hears self.old (fault ∷ []) self.new) }
        ensures most { self.new.most ≡ self.old.most }
    {
        if self.first.len() < self.most {
            self.first.push(fault)?;
        }
        self.count = self.count.saturating_add(1);
        Ok(())
    }
}

impl<'a> Reader<'a> {
    /// One step, or its fault, and then all is as it was.
    fn pass_step(
        &mut self,
        alloc: Global,
        faults: &mut NameFaults,
        step: &Step<'a, '_>,
    ) -> Result<(), AllocError>
        requires { Follows (latest self.old.entries) (step_of step.now) }
        ensures passed { IfOk result (λ done. Passes self.old faults.old (step_of step.now ∷ []) self.new faults.new) }
        ensures most { faults.new.most ≡ faults.old.most }
    {
        match self.read_step(alloc, step) {
            Ok(()) => Ok(()),
            Err(NameFault::NoMemory) => Err(AllocError),
            Err(fault) => faults.hear(fault),
        }
    }

    fn pass_steps(
        &mut self,
        alloc: Global,
        faults: &mut NameFaults,
        steps: &[Step<'a, '_>],
    ) -> Result<(), AllocError>
        requires { Rises (latest self.old.entries) (map step_of steps.now) }
        ensures passed { IfOk result (λ done. Passes self.old faults.old (map step_of steps.now) self.new faults.new) }
        ensures most { faults.new.most ≡ faults.old.most }
    {
        for step in steps {
            self.pass_step(alloc, faults, step)?;
        }
        Ok(())
    }

    /// A definition but for a module.
    fn pass_flat(
        &mut self,
        alloc: Global,
        faults: &mut NameFaults,
        d: &Definition<'a>,
    ) -> Result<(), AllocError>
        requires { Rises (latest self.old.entries) (flat_steps d.now) }
        ensures passed { IfOk result (λ done. Passes self.old faults.old (flat_steps d.now) self.new faults.new) }
        ensures most { faults.new.most ≡ faults.old.most }
    {
        let mut steps = Steps::new(alloc);
        steps.add_flat(d)?;
        self.pass_steps(alloc, faults, steps.as_slice())
    }

    #[cycle(passing)]
    fn pass_module(
        &mut self,
        alloc: Global,
        faults: &mut NameFaults,
        m: &Module<'a>,
    ) -> Result<(), AllocError>
        requires { Rises (latest self.old.entries) (module_body m.now.identifier (steps_of m.now.definitions.items)) }
        ensures passed { IfOk result (λ done. Passes self.old faults.old
            (module_body m.now.identifier (steps_of m.now.definitions.items)) self.new faults.new) }
        ensures most { faults.new.most ≡ faults.old.most }
    {
        let step = Step::Declares(EntryKind::Module, m.identifier);
        self.pass_step(alloc, faults, &step)?;
        self.enter(m.identifier);
        self.pass_definitions(alloc, faults, m.definitions.as_slice())?;
        self.leave();
        Ok(())
    }

    #[cycle(passing)]
    fn pass_definition(
        &mut self,
        alloc: Global,
        faults: &mut NameFaults,
        d: &Definition<'a>,
    ) -> Result<(), AllocError>
        requires { Rises (latest self.old.entries) (definition_steps d.now) }
        ensures passed { IfOk result (λ done. Passes self.old faults.old (definition_steps d.now) self.new faults.new) }
        ensures most { faults.new.most ≡ faults.old.most }
    {
        match d {
            Definition::Module(m) => self.pass_module(alloc, faults, m),
            Definition::Pragma(_) | Definition::Declaration(_) | Definition::Interface(_) => {
                self.pass_flat(alloc, faults, d)
            }
        }
    }

    #[cycle(passing)]
    fn pass_definitions(
        &mut self,
        alloc: Global,
        faults: &mut NameFaults,
        definitions: &[Definition<'a>],
    ) -> Result<(), AllocError>
        requires { Rises (latest self.old.entries) (steps_of definitions.now) }
        ensures passed { IfOk result
            (λ done. Passes self.old faults.old (steps_of definitions.now) self.new faults.new) }
        ensures most { faults.new.most ≡ faults.old.most }
    {
        for definition in definitions {
            self.pass_definition(alloc, faults, definition)?;
        }
        Ok(())
    }

    /// An entry that was declared ahead, if it is never defined.
    fn hear_open(&self, faults: &mut NameFaults, number: usize) -> Result<(), AllocError>
        requires { number < length self.now.entries }
        ensures heard { IfOk result (λ done. IfSome (slice_get self.now.entries number)
            (λ e. Hears faults.old (fault_left self.now number e) faults.new)) }
        ensures most { faults.new.most ≡ faults.old.most }
    {
        if !self.is_left_open(number) {
            return Ok(());
        }
        match declared_at(self.table(), number) {
            Some(at) => faults.hear(NameFault::Unknown { at }),
            None => Ok(()),
        }
    }

    /// What was declared ahead and is never defined.
    fn hear_left(&self, faults: &mut NameFaults) -> Result<(), AllocError>
        ensures heard { IfOk result (λ done. Hears faults.old (faults_behind self.now) faults.new) }
        ensures most { faults.new.most ≡ faults.old.most }
    {
        for number in 0..self.table().len() {
            self.hear_open(faults, number)?;
        }
        Ok(())
    }
}

/// All faults of a specification's names, where each step of reading that is refused is passed over:
/// the first of them, so many at most, and how many there are, 2^64 - 1 at most.
///
/// # Errors
/// Want of memory.
pub fn name_faults(alloc: Global, spec: &Spec<'_>, most: usize) -> Result<NameFaults, AllocError>
    ensures first { IfOk result (λ faults. faults.first.items ≡ take most (all_faults spec.now.definitions.items)) }
    ensures count { IfOk result (λ faults. faults.count
        ≡ min (length (all_faults spec.now.definitions.items)) 18446744073709551615) }
{
    let mut reader = Reader::new(alloc);
    let mut faults = NameFaults::new(alloc, most);
    reader.pass_definitions(alloc, &mut faults, spec.definitions.as_slice())?;
    reader.hear_left(&mut faults)?;
    Ok(faults)
}
