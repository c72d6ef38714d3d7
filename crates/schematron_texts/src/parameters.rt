ghost use Rattle.std.specs.Prelude.{◌≡◌, [], chars, option_map, OnOk, OnErr};
ghost use Rattle.schematron_texts.specs.Replacing as spec;

use indexmap::IndexMap;
use std::alloc::{AllocError, Global};
use std::marker::Model;

/// The parameters of a use of an abstract pattern. Contracts see them as a list in the order in which they were given,
/// without those whose name stood before.
pub struct Parameters {
    values: IndexMap<String, String>,
}

impl Drop for Parameters {
    fn drop(self) {
        let Parameters { values } = self;
        drop(values);
    }
}

impl Model for Parameters {
    ghost use Rattle.std.specs.Prelude.{List};
    ghost use Rattle.schematron_texts.specs.Replacing.{Parameter, parameters_in};

    ghost Value = { List Parameter };

    ghost view = { λ parameters. parameters_in parameters.values.entries };
}

impl Parameters {
    /// No parameter.
    pub fn new(alloc: Global) -> Parameters
        ensures { result ≡ [] }
    {
        Parameters {
            values: IndexMap::new(alloc),
        }
    }

    /// One more, unless one of that name was given: the first counts. Want of memory changes nothing.
    pub fn push(&mut self, alloc: Global, name: &str, value: &str) -> Result<(), AllocError>
        ensures ok { OnOk result (self.new ≡ spec.with_parameter self.old (chars name.now) (chars value.now)) }
        ensures err { OnErr result (self.new ≡ self.old) }
    {
        if self.value(name).is_some() {
            return Ok(());
        }
        let name = String::from_str(alloc, name)?;
        let value = String::from_str(alloc, value)?;
        self.values.insert(name, value)?;
        Ok(())
    }

    /// The value of the parameter of that name.
    pub fn value(&self, name: &str) -> Option<&str>
        ensures { option_map (λ value. chars value.now) result ≡ spec.value_of self.now (chars name.now) }
    {
        value_in(&self.values, name)
    }
}

fn value_in<'a>(values: &'a IndexMap<String, String>, name: &str) -> Option<&'a str>
    ensures { option_map (λ value. chars value.now) result ≡ spec.value_of (spec.parameters_in values.now.entries) (chars name.now) }
{
    match values.get(name) {
        Some(value) => Some(value.as_str()),
        None => None,
    }
}
