//! What plans are worth, as theorems over the definitions: functions with no body, whose clauses are the laws.
ghost use Rattle.std.specs.Prelude.{◌≡◌, ◌≤◌, ℕ, IsTrue, Ok};
ghost use Rattle.smc_tokens.specs.Tokens.{is_civil};
ghost use Rattle.smc_types.specs.declared.days.TheConstants.{YEAR_MAX};
ghost use Rattle.smc_plan.specs.Exprs.{day_planned, day_typed, has_date};
ghost use Rattle.smc_plan.specs.Laws.{EditsAreTyped, EditsDiffer, QueriesAreTyped, QueriesDiffer};
ghost use Rattle.smc_plan.specs.Worked.{EndsInReference, FaultsInOrder, FollowsName, LacksField, LacksFold, LacksTable, PlansForecast, PlansShipping, SumsSquares, SumsText};

use smc_types::laws::a_text_says_a_day_in_range;

/// Queries over the tables of TPC-H, with their plans or their faults.
pub fn worked_queries()
    ensures lacks_table { LacksTable }
    ensures lacks_field { LacksField }
    ensures lacks_fold { LacksFold }
    ensures sums_text { SumsText }
    ensures ends_in_reference { EndsInReference }
    ensures follows_name { FollowsName }
    ensures sums_squares { SumsSquares }
    ensures faults_in_order { FaultsInOrder }
    ensures plans_forecast { PlansForecast }
    ensures plans_shipping { PlansShipping }
{}

/// No leaf of a plan stands twice.
pub fn leaves_are_different()
    ensures of_queries { QueriesDiffer }
    ensures of_edits { EditsDiffer }
{}

/// The parts of a plan are what they are said to be: each expression has the kind that its tree and the leaves give, all that
/// is compared can be compared, and places and columns are in range.
pub fn parts_are_typed()
    ensures of_queries { QueriesAreTyped }
    ensures of_edits { EditsAreTyped }
{
    a_text_says_a_day_in_range();
}

/// The calendar of query texts is that of the tables: a date that a text can spell is a day, and no plan refuses it.
pub fn one_calendar()
    ensures same { (year month day : ℕ) → year ≤ YEAR_MAX → has_date year month day ≡ is_civil year month day }
    ensures taken { (year month day : ℕ) → year ≤ YEAR_MAX → IsTrue (is_civil year month day) → day_typed year month day ≡ Ok (day_planned year month day) }
{}
