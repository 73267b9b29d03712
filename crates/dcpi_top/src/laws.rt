//! The laws of the layers below that the promises of the top call rest on.
ghost use Rattle.std.specs.Prelude.{◌≡◌, ℕ, List};
ghost use Rattle.store_io.specs.Files.{Files};
ghost use Rattle.trace_laws.specs.Readings.{HasOneRefusal, HasOneTrace, IsRefused, IsTrace};
ghost use Rattle.symbol_ranges.specs.Readings as symbols;
ghost use Rattle.database_state.specs.Heads as heads;
ghost use Rattle.database_state.specs.Standing.{HaveHead};
ghost use Rattle.growth_model.specs.Laws.{FirstHeadsAreOne, FirstPartsAreOne, OneHeadIsOne};
ghost use Rattle.profile_merge.specs.Laws.{GrowthHasNoFault};
ghost use Rattle.made_runs.specs.Stopping.{FittingRunsDoNotStop};

use epoch_store::files_stand_for_one_database;
use growth_model::{growth_is_determined, heads_are_determined};
use made_runs::fitting_runs_do_not_stop;
use profile_merge::growth_has_no_fault;

/// An input has one reading, files have one head, and what a run makes of a database is determined.
pub fn laws()
    ensures not_both { (bytes : List ℕ) → IsTrace bytes → IsRefused bytes → ⊥ }
    ensures one_trace { (bytes : List ℕ) → HasOneTrace bytes }
    ensures one_refusal { (bytes : List ℕ) → HasOneRefusal bytes }
    ensures no_list { (bytes : List ℕ) → symbols.IsList bytes → symbols.IsRefused bytes → ⊥ }
    ensures one_symbol_refusal { (bytes : List ℕ) → symbols.HasOneRefusal bytes }
    ensures one_head { (files : Files) (h k : heads.Head) →
        HaveHead files h → HaveHead files k → h ≡ k }
    ensures grown { FirstPartsAreOne }
    ensures next_head { OneHeadIsOne }
    ensures first_heads { FirstHeadsAreOne }
    ensures no_fault { GrowthHasNoFault }
    ensures no_stop { FittingRunsDoNotStop }
{
    trace_laws::one_reading();
    symbol_ranges::one_reading();
    files_stand_for_one_database();
    growth_is_determined();
    heads_are_determined();
    growth_has_no_fault();
    fitting_runs_do_not_stop();
}
