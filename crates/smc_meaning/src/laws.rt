//! What holds of the values of a plan, as theorems over the definitions: functions with no body, whose clauses are the laws.
ghost use Rattle.std.specs.Prelude.{◌≡◌, ℕ, List, [], IsTrue, None, Ok, Option, Some};
ghost use Rattle.smc_plan.specs.Bounds.{is_within};
ghost use Rattle.smc_plan.specs.Typed.{TypedTree};
ghost use Rattle.smc_plan.specs.declared.kind.Kind.{Kind};
ghost use Rattle.smc_plan.specs.declared.leaf.Leaf.{Leaf};
ghost use Rattle.smc_folds.specs.Kinds as folds;
ghost use Rattle.smc_plan.specs.Kinds.{IsPlan, kind_in};
ghost use Rattle.smc_plan.specs.Planned.{Planned};
ghost use Rattle.smc_meaning.specs.Answers.{answer_of};
ghost use Rattle.smc_meaning.specs.Values.{Cell, value_of};
ghost use Rattle.smc_meaning.specs.Kinds.{IsOf};
ghost use Rattle.std.specs.Cmp.{IsTotalOrder};
ghost use Rattle.std.specs.List.Sorted.{IsPermutation, IsSorted};
ghost use Rattle.std.specs.declared.cmp.Ordering.TheVariants.{Equal};
ghost use Rattle.smc_plan.specs.declared.plan.OrderKey.{OrderKey};
ghost use Rattle.smc_meaning.specs.Orders.{ordered, row_order};
ghost use Rattle.smc_meaning.specs.Sorting.{sorted};
ghost use Rattle.smc_meaning.specs.Printed.{answer_text};
ghost use Rattle.smc_meaning.specs.WorkedTexts.{a_count, a_count_text, a_day, a_day_text, count_falls, four_in_order, four_rows, nothing_text, some_kinds, some_kinds_text, two_in_order};
ghost use Rattle.smc_meaning.specs.Worked.{AveragesAreRounded, GroupsAreOrdered, NoRowsAreOneGroup, TextsAndFolds, TiesGoByTheColumns};

/// In every row the value of an expression is one of its kind, within the bound of that, which is below the limit.
pub fn values_are_bounded()
    ensures value { (leaves : List Leaf) (typed : TypedTree) (words : List ℕ) (kind : Kind)
        → kind_in leaves typed ≡ Ok kind → IsOf kind (value_of leaves typed words) }
    ensures limit { (leaves : List Leaf) (typed : TypedTree) (kind : Kind)
        → kind_in leaves typed ≡ Ok kind → IsTrue (is_within kind) }
{}

/// What some answers print.
pub fn worked_texts()
    ensures count { answer_text a_count ≡ a_count_text }
    ensures kinds { answer_text some_kinds ≡ some_kinds_text }
    ensures nothing { answer_text [] ≡ nothing_text }
    ensures day { answer_text a_day ≡ a_day_text }
{}

/// The order of some rows.
pub fn worked_order()
    ensures all { ordered count_falls None four_rows ≡ four_in_order }
    ensures first { ordered count_falls (Some 2) four_rows ≡ two_in_order }
    ensures none { ordered count_falls (Some 0) four_rows ≡ [] }
{}

/// The order of rows is total, and rows that it does not tell apart are one.
pub fn rows_are_ordered()
    ensures total { (keys : List OrderKey) → IsTotalOrder (row_order keys) }
    ensures apart { (keys : List OrderKey) (one other : List (Option Cell)) → row_order keys one other ≡ Equal → one ≡ other }
{}

/// Sorted rows are the same rows in order, and no other list is: whatever order they came in, they are sorted to one list.
pub fn sorted_is_one()
    ensures same { (keys : List OrderKey) (rows : List (List (Option Cell))) → IsPermutation rows (sorted (row_order keys) rows) }
    ensures rises { (keys : List OrderKey) (rows : List (List (Option Cell))) → IsSorted (row_order keys) (sorted (row_order keys) rows) }
    ensures alone { (keys : List OrderKey) (rows others : List (List (Option Cell)))
        → IsPermutation rows others → IsSorted (row_order keys) others → others ≡ sorted (row_order keys) rows }
    ensures bag { (keys : List OrderKey) (rows others : List (List (Option Cell)))
        → IsPermutation rows others → sorted (row_order keys) others ≡ sorted (row_order keys) rows }
{}

/// The answer is one of the bag of rows: in whatever order they come, it is the same.
///
/// So whoever answers a query may read its rows in any order, as a scan hands them on.
pub fn answer_of_a_bag()
    ensures { (plan : Planned) (kinds : List folds.Kind) (rows others : List (List ℕ)) → IsPlan plan.leaves plan
        → IsPermutation rows others → answer_of plan kinds others ≡ answer_of plan kinds rows }
{}

/// Answers over a few rows.
pub fn worked()
    ensures averages { AveragesAreRounded }
    ensures no_rows { NoRowsAreOneGroup }
    ensures order { GroupsAreOrdered }
    ensures ties { TiesGoByTheColumns }
    ensures texts { TextsAndFolds }
{}
