ghost use Rattle.std.specs.Prelude.{◌≡◌, All, IfOk, IfSome, length};
ghost use Rattle.std.specs.String.{string_bytes};
ghost use Rattle.smc_folds.specs.Kinds.{has_name};
ghost use Rattle.smc_folds.specs.Takings.{Taking, announced, takes, takes_all, CanTake, CanTakeAll, IsAscending, IsAnswer, IsNumber, IsWhole};

use crate::Fold;
use smc_words::NoMemory;
use std::alloc::Global;

/// A box that was handed in.
#[derive(Drop)]
pub struct Boxed {
    pub fold: Box<dyn Fold>,
}

// Hands one number over.
fn take_one(fold: &mut Box<dyn Fold>, value: i128)
    requires { (taking : Taking) × (has_taken fold.old taking) × (CanTake taking value) }
    ensures kind { kind fold.new ≡ kind fold.old }
    ensures taken { (taking : Taking) → has_taken fold.old taking → CanTake taking value
        → has_taken fold.new (takes taking value) }
{
    fold.take(value);
}

// Hands the numbers over, each half after the other, so that calls nest as deep as a number has bits.
fn take_all(fold: &mut Box<dyn Fold>, values: &[i128])
    requires { (taking : Taking) × (has_taken fold.old taking) × (CanTakeAll taking values.now) }
    ensures kind { kind fold.new ≡ kind fold.old }
    ensures taken { (taking : Taking) → has_taken fold.old taking → CanTakeAll taking values.now
        → has_taken fold.new (takes_all taking values.now) }
{
    if values.len() > 1 {
        let (front, back) = values.split_at(values.len() / 2);
        take_all(fold, front);
        take_all(fold, back);
    } else if values.len() == 1 {
        take_one(fold, values[0]);
    }
}

// What the box answers.
fn answer_of(fold: &Box<dyn Fold>) -> Option<i128>
    requires { (taking : Taking) × (has_taken fold.now taking) × (IsWhole taking) }
    ensures function { (taking : Taking) → has_taken fold.now taking → IsWhole taking
        → result ≡ (kind fold.now).function taking.taken }
    ensures fits { IfSome result IsAnswer }
{
    fold.answer()
}

impl Boxed {
    /// Whether the box has this name.
    pub(crate) fn has_name(&self, name: &str) -> bool
        ensures { result ≡ has_name name.now (kind self.now.fold) }
    {
        self.fold.name() == name
    }

    /// Its name, which is copied.
    pub(crate) fn copied_name(&self, alloc: Global) -> Result<String, NoMemory>
        ensures { IfOk result (λ name. string_bytes name ≡ (kind self.now.fold).name) }
    {
        Ok(String::from_str(alloc, self.fold.name())?)
    }

    /// Whether an answer has the scale of the numbers.
    pub(crate) fn scaled(&self) -> bool
        ensures { result ≡ (kind self.now.fold).scaled }
    {
        self.fold.scaled()
    }

    /// The box's own function of these numbers.
    pub(crate) fn answer_to(&mut self, values: &[i128]) -> Option<i128>
        requires ascending { IsAscending values.now }
        requires numbers { All IsNumber values.now }
        ensures kind { kind self.new.fold ≡ kind self.old.fold }
        ensures answer { result ≡ (kind self.old.fold).function values.now }
        ensures fits { IfSome result IsAnswer }
    {
        self.fold.start(values.len() as u64);
        take_all(&mut self.fold, values);
        answer_of(&self.fold)
    }
}
