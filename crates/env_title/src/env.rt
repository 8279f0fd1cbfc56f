ghost use Rattle.std.specs.Prelude.{◌≡◌, ◌<◌, ◌==◌, [], length, option_copied, IsErr, IfOk, OnOk, OnErr, string_bytes};
ghost use Rattle.env_title.specs.Env.{HasDistinctNames, value_of, without, put};

use std::alloc::{AllocError, Allocator, Global};
use std::marker::Model;

/// An environment variable. Contracts see the bytes of its name and of its value.
#[derive(Debug, Drop)]
pub struct Variable<A: Allocator = Global> {
    name: String<A>,
    value: String<A>,
}

impl<A: Allocator> Model for Variable<A> {
    ghost use Rattle.std.specs.Prelude.{string_bytes};
    ghost use Rattle.env_title.specs.Env.{Binding, binding};

    ghost Value = { Binding };

    ghost view = { λ variable. binding (string_bytes variable.name) (string_bytes variable.value) };
}

impl<A: Allocator> Variable<A> {
    /// Returns the name.
    pub fn name(&self) -> &str
        ensures { result.now ≡ self.now.name }
    {
        self.name.as_str()
    }

    /// Returns the value.
    pub fn value(&self) -> &str
        ensures { result.now ≡ self.now.value }
    {
        self.value.as_str()
    }
}

impl<A: Allocator + Clone> Variable<A> {
    /// Copies the variable into memory of this allocator.
    fn copy(&self, alloc: &A) -> Result<Variable<A>, AllocError>
        ensures { IfOk result (λ copy. copy ≡ self.now) }
    {
        Ok(Variable {
            name: String::from_str(alloc.clone()?, self.name())?,
            value: String::from_str(alloc.clone()?, self.value())?,
        })
    }
}

/// Environment variables, with no name twice. Contracts see them as a list.
#[derive(Debug, Drop)]
pub struct Env<A: Allocator = Global> {
    variables: Vec<Variable<A>, A>,
}

impl<A: Allocator> Model for Env<A> {
    ghost use Rattle.std.specs.Prelude.{List};
    ghost use Rattle.env_title.specs.Env.{Binding, HasDistinctNames};

    ghost Value = { List Binding };

    ghost view = { λ env. env.variables.items };

    ghost invariant = { λ env. HasDistinctNames env.variables.items };
}

impl<A: Allocator + Clone> Env<A> {
    /// Copies the variables into memory of this allocator. An empty environment needs no memory.
    pub(crate) fn copy(&self, alloc: A) -> Result<Env<A>, AllocError>
        ensures ok { IfOk result (λ copy. copy ≡ self.now) }
        ensures memory { IsErr result → 0 < length self.now }
    {
        let mut variables = Vec::with_capacity(alloc, self.len())?;
        for variable in &self.variables {
            let copy = variable.copy(variables.allocator())?;
            variables.push(copy)?;
        }
        Ok(Env { variables })
    }
}

impl<A: Allocator> Env<A> {
    /// Returns an environment with no variables. Needs no memory.
    pub fn new(alloc: A) -> Env<A>
        ensures { result ≡ [] }
    {
        Env {
            variables: Vec::new(alloc),
        }
    }

    /// Returns the allocator of its memory.
    pub(crate) fn allocator(&self) -> &A {
        self.variables.allocator()
    }

    /// Returns the variables, in order.
    pub fn as_slice(&self) -> &[Variable<A>]
        ensures variables { result.now ≡ self.now }
        ensures distinct { HasDistinctNames self.now }
    {
        self.variables.as_slice()
    }

    /// Returns how many variables there are.
    pub fn len(&self) -> usize
        ensures { result ≡ length self.now }
    {
        self.variables.len()
    }

    /// Returns whether there are no variables.
    pub fn is_empty(&self) -> bool
        ensures { result ≡ (length self.now == 0) }
    {
        self.variables.is_empty()
    }

    /// Returns the value of the variable with this name.
    pub fn get(&self, name: &str) -> Option<&str>
        ensures { option_copied result ≡ value_of self.now name.now }
    {
        let variable = self
            .variables
            .iter()
            .find(|variable| variable.name() == name)?;
        Some(variable.value())
    }

    /// Removes the variable with this name, if there is one. Needs no memory.
    pub fn remove(&mut self, name: &str)
        ensures { self.new ≡ without self.old name.now }
    {
        self.variables.retain(|variable| variable.name() != name);
    }

    /// Sets a variable: it becomes the last one, and replaces any other with its name. On `Err` nothing has changed.
    pub fn put(&mut self, name: String<A>, value: String<A>) -> Result<(), AllocError>
        ensures ok { OnOk result (self.new ≡ put self.old (string_bytes name) (string_bytes value)) }
        ensures err { OnErr result (self.new ≡ self.old) }
    {
        self.variables.reserve(1)?;
        self.variables
            .retain(|variable| variable.name() != name.as_str());
        self.variables.push_reserved(Variable { name, value });
        Ok(())
    }
}
