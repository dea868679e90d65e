ghost use Rattle.std.specs.Prelude.{◌≡◌, ◌<◌, ◌++◌, [], map, length, All, IfOk, IfSome, OnOk, is_some};
ghost use Rattle.std.specs.String.{string_bytes};
ghost use Rattle.smc_folds.specs.Kinds.{answer_by, scaled_by, without_first};
ghost use Rattle.smc_folds.specs.Places.{place_named};
ghost use Rattle.smc_folds.specs.Takings.{IsAscending, IsAnswer, IsNumber};

use crate::{Boxed, Fold};
use smc_words::NoMemory;
use std::alloc::Global;

/// The boxes that were handed in. The first of equal names counts.
#[derive(Drop)]
pub struct Bench {
    pub boxes: Vec<Boxed>,
}

// The answer of the first box of that name.
fn use_first(boxes: &mut [Boxed], name: &str, values: &[i128]) -> Option<Option<i128>>
    requires ascending { IsAscending values.now }
    requires numbers { All IsNumber values.now }
    ensures kept { map (λ b. kind b.fold) boxes.new ≡ map (λ b. kind b.fold) boxes.old }
    ensures answer { result ≡ answer_by (map (λ b. kind b.fold) boxes.old) name.now values.now }
    ensures fits { IfSome result (λ answer. IfSome answer IsAnswer) }
{
    match boxes.split_first_mut() {
        None => None,
        Some((first, rest)) => {
            if first.has_name(name) {
                Some(first.answer_to(values))
            } else {
                use_first(rest, name, values)
            }
        }
    }
}

// Whether the first box of that name is scaled.
fn first_scaled(boxes: &[Boxed], name: &str) -> Option<bool>
    ensures { result ≡ scaled_by (map (λ b. kind b.fold) boxes.now) name.now }
{
    match boxes.split_first() {
        None => None,
        Some((first, rest)) => {
            if first.has_name(name) {
                Some(first.scaled())
            } else {
                first_scaled(rest, name)
            }
        }
    }
}

// The place of the first box of that name.
fn place_of(boxes: &[Boxed], name: &str) -> Option<usize>
    ensures place { result ≡ place_named (map (λ b. kind b.fold) boxes.now) name.now }
    ensures within { IfSome result (λ place. place < length boxes.now) }
{
    match boxes.split_first() {
        None => None,
        Some((first, rest)) => {
            if first.has_name(name) {
                return Some(0);
            }
            match place_of(rest, name) {
                None => None,
                Some(place) => Some(place + 1),
            }
        }
    }
}

// Puts the names of the boxes behind what is there.
fn push_names(alloc: Global, boxes: &[Boxed], names: &mut Vec<String>) -> Result<(), NoMemory>
    ensures { OnOk result (map string_bytes names.new.items ≡ map string_bytes names.old.items ++ map (λ kind. kind.name) (map (λ b. kind b.fold) boxes.now)) }
{
    match boxes.split_first() {
        None => Ok(()),
        Some((first, rest)) => {
            names.push(first.copied_name(alloc)?)?;
            push_names(alloc, rest, names)
        }
    }
}

impl Bench {
    /// No boxes, which takes no memory.
    pub fn new(alloc: Global) -> Bench
        ensures { result.boxes.items ≡ [] }
    {
        Bench {
            boxes: Vec::new(alloc),
        }
    }

    /// The names of the boxes, in order, each as often as it was handed in.
    pub fn names(&self, alloc: Global) -> Result<Vec<String>, NoMemory>
        ensures { IfOk result (λ names. map string_bytes names.items ≡ map (λ kind. kind.name) (map (λ b. kind b.fold) self.now.boxes.items)) }
    {
        let mut names = Vec::new(alloc);
        push_names(alloc, &self.boxes, &mut names)?;
        Ok(names)
    }

    /// The answer of the first box of that name to these values; `None` exactly where no box has it.
    pub fn use_one(&mut self, name: &str, values: &[i128]) -> Option<Option<i128>>
        requires ascending { IsAscending values.now }
        requires numbers { All IsNumber values.now }
        ensures kept { map (λ b. kind b.fold) self.new.boxes.items ≡ map (λ b. kind b.fold) self.old.boxes.items }
        ensures answer { result ≡ answer_by (map (λ b. kind b.fold) self.old.boxes.items) name.now values.now }
        ensures fits { IfSome result (λ answer. IfSome answer IsAnswer) }
    {
        use_first(&mut self.boxes, name, values)
    }

    /// Whether the first box of that name is scaled; `None` exactly where no box has it.
    pub fn scaled(&self, name: &str) -> Option<bool>
        ensures { result ≡ scaled_by (map (λ b. kind b.fold) self.now.boxes.items) name.now }
    {
        first_scaled(&self.boxes, name)
    }

    /// Drops the first box of that name; `false` exactly where no box has it.
    pub fn drop_one(&mut self, name: &str) -> bool
        ensures dropped { map (λ b. kind b.fold) self.new.boxes.items ≡ without_first (map (λ b. kind b.fold) self.old.boxes.items) name.now }
        ensures found { result ≡ is_some (place_named (map (λ b. kind b.fold) self.old.boxes.items) name.now) }
    {
        match place_of(&self.boxes, name) {
            None => false,
            Some(place) => {
                self.boxes.remove(place);
                true
            }
        }
    }
}

#[cfg(test)]
mod tests {
    use super::*;
    use crate::{Distinct, Median, Range};
    use std::test::Fail;

    #[test]
    fn boxes_are_found_by_name(rt: HostRuntime) -> Result<(), Fail> {
        let alloc = rt.alloc();
        let mut bench = Bench::new(alloc);
        assert!(rt; bench.names(alloc)?.is_empty());
        bench.boxes.push(Boxed {
            fold: Box::new(alloc, Distinct::new())?,
        })?;
        bench.boxes.push(Boxed {
            fold: Box::new(alloc, Median::new())?,
        })?;
        bench.boxes.push(Boxed {
            fold: Box::new(alloc, Range::new())?,
        })?;
        let names = bench.names(alloc)?;
        assert_eq!(rt; names.len(), 3);
        assert_eq!(rt; names[1].as_str(), "median");
        assert_eq!(rt; bench.scaled("distinct"), Some(false));
        assert_eq!(rt; bench.scaled("median"), Some(true));
        assert_eq!(rt; bench.scaled("total"), None);
        assert_eq!(rt; bench.use_one("distinct", &[]), Some(Some(0)));
        assert_eq!(rt; bench.use_one("range", &[]), Some(None));
        assert_eq!(rt; bench.use_one("total", &[]), None);
        assert!(rt; bench.drop_one("median"));
        assert!(rt; !bench.drop_one("median"));
        assert_eq!(rt; bench.use_one("median", &[]), None);
        Ok(())
    }
}
