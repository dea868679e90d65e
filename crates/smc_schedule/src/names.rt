ghost use Rattle.std.specs.Prelude.{◌≡◌, ℕ, List, None, Some, OnOk, OnErr, IsSome};
ghost use Rattle.std.specs.Option.{option_copied};
ghost use Rattle.smc_words.specs.declared.number.Number.{Number};
ghost use Rattle.smc_schedule.specs.Known.{known_as, name_at, KeepsKnown, KeepsNumbers, SetsKnown, SetsNumber};
ghost use Rattle.smc_schedule.specs.declared.names.Known.TheVariants.{Pending, Full, Object};

use crate::name::Name;
use smc_words::{NoMemory, Number};
use std::alloc::Global;
use std::collections::BTreeMap;

/// What a name stands for.
#[derive(Clone, Copy, Debug, PartialEq, Eq)]
pub enum Known {
    /// Nothing yet: its add has not ended.
    Pending,
    /// Nothing: its add found no room.
    Full,
    /// This object.
    Object(Number),
}

/// The names that were given, and the objects that have one.
#[derive(Drop)]
pub struct Names {
    by_name: BTreeMap<String, Known>,
    by_number: BTreeMap<Number, String>,
}

impl Names {
    /// A table without names.
    pub fn new(alloc: Global) -> Self
        ensures names { (name : List ℕ) → known_as result name ≡ None }
        ensures numbers { (number : Number) → name_at result number ≡ None }
    {
        Names {
            by_name: BTreeMap::new(alloc),
            by_number: BTreeMap::new(alloc),
        }
    }

    /// What a name stands for, where it was given.
    pub fn get(&self, name: &str) -> Option<Known>
        ensures { result ≡ known_as self.now name.now }
    {
        self.by_name.get(name).copied()
    }

    /// The name of an object, where it has one.
    pub fn name_of(&self, number: Number) -> Option<&str>
        ensures { option_copied result ≡ name_at self.now number }
    {
        match self.by_number.get(&number) {
            Some(name) => Some(name.as_str()),
            None => None,
        }
    }

    /// Gives a name, whose add has begun. Where memory is refused, nothing has changed.
    pub fn give(&mut self, alloc: Global, name: &Name) -> Result<(), NoMemory>
        ensures done { OnOk result (SetsKnown self.old self.new name.now Pending) }
        ensures kept { OnErr result (KeepsKnown self.old self.new) }
        ensures numbers { KeepsNumbers self.old self.new }
    {
        let key = String::from_str(alloc, name.as_str())?;
        self.by_name.insert(key, Known::Pending)?;
        Ok(())
    }

    /// Says that the add of a name found no room.
    pub fn fill(&mut self, name: &str)
        requires { IsSome (known_as self.old name.now) }
        ensures done { SetsKnown self.old self.new name.now Full }
        ensures numbers { KeepsNumbers self.old self.new }
    {
        if let Some(known) = self.by_name.get_mut(name) {
            *known = Known::Full;
        }
    }

    /// Says which object a name stands for. Where memory is refused, nothing has changed.
    pub fn settle(&mut self, alloc: Global, name: &str, number: Number) -> Result<(), NoMemory>
        requires { IsSome (known_as self.old name.now) }
        ensures done { OnOk result (SetsKnown self.old self.new name.now (Object number)) }
        ensures named { OnOk result (SetsNumber self.old self.new number name.now) }
        ensures kept { OnErr result (KeepsKnown self.old self.new) }
        ensures kept_numbers { OnErr result (KeepsNumbers self.old self.new) }
    {
        let text = String::from_str(alloc, name)?;
        self.by_number.insert(number, text)?;
        if let Some(known) = self.by_name.get_mut(name) {
            *known = Known::Object(number);
        }
        Ok(())
    }
}

#[cfg(test)]
mod tests {
    use super::*;
    use std::test::Fail;

    #[test]
    fn a_name_stands_for_its_object_once_its_add_has_ended(rt: HostRuntime) -> Result<(), Fail> {
        let alloc = rt.alloc();
        let number = Number {
            incarnation: 1,
            entry: 5,
            coll: 0,
        };
        let mut names = Names::new(alloc);
        assert_eq!(rt; names.get("a"), None);
        names.give(alloc, &Name::of(alloc, "a")?)?;
        assert_eq!(rt; names.get("a"), Some(Known::Pending));
        names.give(alloc, &Name::of(alloc, "b")?)?;
        let (Some(_), Some(_)) = (names.get("a"), names.get("b")) else {
            assert!(rt; false, "both were given");
            return Ok(());
        };
        names.fill("b");
        assert_eq!(rt; names.get("b"), Some(Known::Full));
        let Some(Known::Pending) = names.get("a") else {
            assert!(rt; false, "its add has not ended");
            return Ok(());
        };
        names.settle(alloc, "a", number)?;
        assert_eq!(rt; names.get("a"), Some(Known::Object(number)));
        assert_eq!(rt; names.get("b"), Some(Known::Full));
        assert_eq!(rt; names.name_of(number).unwrap_or("?"), "a");
        assert!(rt; names.name_of(Number { entry: 6, ..number }).is_none());
        Ok(())
    }
}
