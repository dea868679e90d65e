ghost use Rattle.std.specs.Prelude.{◌≡◌, IfSome};
ghost use Rattle.smc_folds.specs.Kinds.{Kind};
ghost use Rattle.smc_folds.specs.Takings.{Taking, announced, takes, CanTake, IsWhole, IsAnswer};

/// A function of a list of numbers, which are announced and then handed over one by one, in ascending order.
pub trait Fold: Drop + Send {
    /// What the box is, which no call changes.
    ghost kind: { Self → Kind };

    /// Whether the box stands as after so many numbers were announced and these taken since.
    ghost has_taken: { Self → Taking → Type 0 };

    /// The name by which queries find the box.
    fn name(&self) -> &str
        ensures { result.now ≡ (kind self.now).name };

    /// Whether an answer has the scale of the numbers; else it is a whole number.
    fn scaled(&self) -> bool
        ensures { result ≡ (kind self.now).scaled };

    /// Announces so many numbers, and forgets those before.
    fn start(&mut self, count: u64)
        ensures kind { kind self.new ≡ kind self.old }
        ensures started { has_taken self.new (announced count) };

    /// Takes the next number.
    fn take(&mut self, value: i128)
        requires { (taking : Taking) × (has_taken self.old taking) × (CanTake taking value) }
        ensures kind { kind self.new ≡ kind self.old }
        ensures taken { (taking : Taking) → has_taken self.old taking → CanTake taking value
            → has_taken self.new (takes taking value) };

    /// The function of the numbers that were taken.
    fn answer(&self) -> Option<i128>
        requires { (taking : Taking) × (has_taken self.now taking) × (IsWhole taking) }
        ensures function { (taking : Taking) → has_taken self.now taking → IsWhole taking
            → result ≡ (kind self.now).function taking.taken }
        ensures fits { IfSome result IsAnswer };
}
